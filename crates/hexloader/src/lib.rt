// Loading an image from Intel HEX: an M text of one line, a HEX text and a label become the machine record and the memory
// that they describe, or are refused. The records are read once: the bytes that they give are kept aside, and made into
// words of the lent memory only when the last record is accepted. The module `records` judges them, `words` makes the
// words.
#![tactic(auto)]

ghost use Rattle.std.specs.Prelude.{◌≡◌, List, ℕ, ◌≤◌, length};
ghost use Rattle.model.specs.Numbers.{most_words};
ghost use Rattle.model.specs.Record.{lent};
ghost use Rattle.model.specs.HexLoad.{judge_alone, no_bytes, load_hex};
ghost use Rattle.machine_record.specs.Struct.{record_of};
ghost use Rattle.header.specs.Loading.{loading_of, headed};
ghost use Rattle.hexloader.specs.Inner.Judging.{load_records};

use causes::Cause;
use header::{Refusal, load_header};
use labels::Bits;
use machine_record::Machine;
use model::numbers;
use reader::read_line;
use records::judge_records;
use words::put_words;

mod records;
mod words;

// How many bytes make a word.
pub(in crate) const WORD_BYTES: usize = 4;

// The most bytes that a machine's memory can have.
const MOST_BYTES: usize = WORD_BYTES * numbers::MOST_WORDS as usize;

// The M text, loaded with so many lent words and labels: its one line, and nothing behind it.
fn load_alone(text: &[u8], words: usize, labels: usize) -> Result<Machine, Refusal<u64>>
    ensures { (w l : List ℕ) → length w ≡ words → length l ≡ labels → loading_of result w l ≡ headed (judge_alone text.now (lent w l)) (lent w l) }
{
    let read = read_line(text);
    let machine = load_header(text.len(), read.line, words, labels)?;
    if read.next < text.len() {
        return Err(Refusal {
            cause: Cause::OutOfOrder,
            line: 2,
        });
    }
    Ok(machine)
}

// The records judged, with as many places for bytes as the machine has: only where all are accepted is the lent memory
// written.
fn load_records(
    hex: &[u8],
    label: Bits,
    machine: Machine,
    words: &mut [u32],
    labels: &mut [Bits],
) -> Result<Machine, Refusal<u64>>
    requires size_le_most_words { machine.fixed.size ≤ most_words }
    requires size_in_bounds { (machine.fixed.size ≤ length words.old) × (machine.fixed.size ≤ length labels.old) }
    ensures { loading_of result words.new labels.new ≡ load_records (record_of machine) hex.now label (no_bytes machine.fixed.size) (lent words.old labels.old) }
{
    let mut most = [None; MOST_BYTES];
    let size = machine.fixed.size as usize;
    let places = &mut most[..WORD_BYTES * size];
    judge_records(hex, places)?;
    put_words(places, label, size, words, labels);
    Ok(machine)
}

// Load an M text with a HEX text, whose words get this label, into the machine record and the lent memory. A refusal
// leaves words and labels as they are. A HEX text has no greatest length, so a line's number is as wide as a length.
pub fn load_hex(
    text: &[u8],
    hex: &[u8],
    label: Bits,
    words: &mut [u32],
    labels: &mut [Bits],
) -> Result<Machine, Refusal<u64>>
    ensures { loading_of result words.new labels.new ≡ load_hex text.now hex.now label (lent words.old labels.old) }
{
    let machine = load_alone(text, words.len(), labels.len())?;
    load_records(hex, label, machine, words, labels)
}
