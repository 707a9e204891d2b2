// Loading: a text becomes the machine record and the memory that it describes, or is refused. Its lines are read once:
// the words of accepted lines are kept aside, and copied to the lent memory only when the last line is accepted.
#![tactic(auto)]

ghost use Rattle.std.specs.Prelude.{◌≡◌, true, ◌≤◌, length, drop};
ghost use Rattle.model.specs.Numbers.{most_words, register_count, longest_text};
ghost use Rattle.model.specs.Record.{lent};
ghost use Rattle.model.specs.Text.{lines};
ghost use Rattle.model.specs.Load.{with_gate, with_register, with_line, gate_in_range, entry_in_range, with_word, load};
ghost use Rattle.machine_record.specs.Struct.{record_of};
ghost use Rattle.texts.specs.Inner.Storable.{is_storable};
ghost use Rattle.header.specs.Loading.{loading_of};
ghost use Rattle.loader.specs.Inner.Judging.{takes, LinesJudged, load_lines};

use header::{Refusal, load_header};
use labels::{Bits, Label};
use machine_record::Machine;
use model::format::Line;
use model::{CallGate, Pair, numbers};
use reader::read_line;
use verdicts::{BEHIND_HEADER, last_of, line_verdict};

// The most words that a machine can have.
pub const MOST_WORDS: usize = numbers::MOST_WORDS as usize;

// One more gate.
#[tactic(auto, using(texts::proofs::Ranges::gate_range))]
fn with_gate(machine: Machine, pc: u64, p: u64, t: u64) -> Machine
    requires { gate_in_range machine.fixed.count pc p t ≡ true }
    ensures { record_of result ≡ with_gate (record_of machine) pc p t }
{
    let mut fixed = machine.fixed;
    let mut gates = fixed.gates;
    let at = fixed.count as usize;
    gates[at] = CallGate {
        entry: pc as u32,
        pair: Pair {
            pc: p as Bits,
            timing: t as Bits,
        },
    };
    fixed.gates = gates;
    fixed.count = fixed.count + 1;
    let mut next = machine;
    next.fixed = fixed;
    next
}

// One register set.
#[tactic(auto, using(texts::proofs::Ranges::entry_range))]
fn with_register(machine: Machine, k: u64, label: u64, value: u64) -> Machine
    requires { entry_in_range register_count k label value ≡ true }
    ensures { record_of result ≡ with_register (record_of machine) k label value }
{
    let mut next = machine;
    let at = k as usize;
    next.registers.values[at] = value as u32;
    next.registers.labels[at] = label as Bits;
    next
}

// The machine with what an accepted line says of it. The words are written later.
fn with_line(machine: Machine, line: Line) -> Machine
    requires { takes machine.fixed.count line ≡ true }
    ensures { record_of result ≡ with_line (record_of machine) line }
{
    match line {
        Line::M(_, _, _, _, _, _) => machine,
        Line::G(pc, p, t) => with_gate(machine, pc, p, t),
        Line::R(k, label, value) => with_register(machine, k, label, value),
        Line::W(_, _, _) => machine,
        Line::Malformed => machine,
    }
}

// The word of a W line.
#[tactic(auto, using(texts::proofs::Kept::stored_range, texts::proofs::Kept::not_stored))]
fn store_word(line: Line, words: &mut [u32], labels: &mut [Bits])
    requires line_value { is_storable (length words.old) line ≡ true }
    requires line_value_2 { is_storable (length labels.old) line ≡ true }
    ensures { lent words.new labels.new ≡ with_word (lent words.old labels.old) line }
{
    let Line::W(address, label, value) = line else {
        return;
    };
    let at = address as usize;
    words[at] = value as u32;
    labels[at] = label as Bits;
}

// The lines from `start` on, behind the M line of this machine: each is judged, and its word kept where it is accepted.
// Beside a refusal nothing is said of what is kept.
fn judge_lines(
    text: &[u8],
    start: usize,
    header: Machine,
    words: &mut [u32],
    labels: &mut [Bits],
) -> Result<Machine, Refusal<u32>>
    requires text_len_bound { length text.now ≤ longest_text }
    requires size_in_bounds { (header.fixed.size ≤ length words.old) × (header.fixed.size ≤ length labels.old) }
    ensures { LinesJudged (record_of header) (lines (drop start text.now)) (lent words.old labels.old) result (lent words.new labels.new) }
{
    let mut machine = header;
    let mut last = BEHIND_HEADER;
    let mut at = start;
    let mut number: u32 = 2;
    // Each turn goes on behind the line that was read, wherever that is: no count and no iterator knows it beforehand.
    while at < text.len() {
        let read = read_line(&text[at..]);
        let line = read.line;
        if let Err(cause) = line_verdict(machine.fixed.size, machine.fixed.count, last, line) {
            return Err(Refusal {
                cause,
                line: number,
            });
        }
        last = last_of(line);
        machine = with_line(machine, line);
        store_word(line, words, labels);
        at += read.next;
        number += 1;
    }
    Ok(machine)
}

// The lines from `start` on, behind the M line of this machine, loaded: only where all of them are accepted is the lent
// memory written.
fn load_lines(
    text: &[u8],
    start: usize,
    header: Machine,
    words: &mut [u32],
    labels: &mut [Bits],
) -> Result<Machine, Refusal<u32>>
    requires text_len_bound { length text.now ≤ longest_text }
    requires size_le_most_words { header.fixed.size ≤ most_words }
    requires size_in_bounds { (header.fixed.size ≤ length words.old) × (header.fixed.size ≤ length labels.old) }
    ensures { loading_of result words.new labels.new ≡ load_lines (record_of header) (lines (drop start text.now)) (lent words.old labels.old) }
{
    let mut kept_words = [0u32; MOST_WORDS];
    let mut kept_labels = [Label::LOWEST.0; MOST_WORDS];
    let judged = judge_lines(text, start, header, &mut kept_words, &mut kept_labels)?;
    let size = header.fixed.size as usize;
    words[..size].copy_from_slice(&kept_words[..size]);
    labels[..size].copy_from_slice(&kept_labels[..size]);
    Ok(judged)
}

// Load a text into the machine record and the lent memory. A refusal leaves words and labels as they are.
pub fn load(text: &[u8], words: &mut [u32], labels: &mut [Bits]) -> Result<Machine, Refusal<u32>>
    ensures { loading_of result words.new labels.new ≡ load text.now (lent words.old labels.old) }
{
    let read = read_line(text);
    let header = load_header(text.len(), read.line, words.len(), labels.len())?;
    load_lines(text, read.next, header, words, labels)
}
