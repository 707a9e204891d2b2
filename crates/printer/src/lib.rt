// Printing a machine: its listing for a viewer's label, written into lent output line by line, each into the part that
// begins where the line before it ended. The length is known before the first byte is written, so a refusal leaves the
// output as it was.
#![tactic(auto)]

ghost use Rattle.std.specs.Prelude.{◌≡◌, ◌&&◌, [], ◌∷◌, ◌+◌, ◌*◌, ◌≤◌, length};
ghost use Rattle.model.specs.Record.{lent};
ghost use Rattle.model.specs.Numbers.{most_fields};
ghost use Rattle.model.specs.Seen.{within};
ghost use Rattle.model.specs.Listing.{line, end_fields, call_fields, call_line, head_lines, head_for, is_listed, entry_for, entry_lines, listing_for, listed, print_for, print as Listing·print};
ghost use Rattle.texts.specs.Inner.Sight.{control_seen, entry_seen, bank_seen};
ghost use Rattle.machine_record.specs.Struct.{record_of};
ghost use Rattle.printer.specs.Printing.{printing_of, printing_with};
ghost use Rattle.printer.specs.Inner.Placing.{state_with, Entries, longest, longest_entry, Placed};

use causes::Cause;
use labels::{Bits, Label};
use machine_record::{Machine, is_blank, is_lent_whole};
use model::{Call, Control, Pair, Registers};
use writer::write_line;

// The letters of the lines.
const E: u8 = b'E';

const F: u8 = b'F';

const H: u8 = b'H';

const R: u8 = b'R';

const W: u8 = b'W';

// The kinds of a call on an F line: numbers of the listing, which an enum would only be turned into.
const GATE: u64 = 1;

const UPCALL: u64 = 2;

// More bytes than any listing has.
pub const OUTPUT: usize = 65536;

// How many bytes were written, or why none; and the record as it was given, which comes back beside a refusal too
// (`printing_of`).
#[derive(Clone, Copy)]
pub struct Printed {
    pub written: Result<usize, Cause>,
    pub machine: Machine,
}

// A register or a word: its number, its label and its value.
#[derive(Clone, Copy)]
struct Entry {
    number: usize,
    label: Bits,
    value: u32,
}

// Prints the machine with the memory that is lent to it, words and their labels, the marks: everything, for the label that
// every other flows to.
#[tactic(auto, using(labels::proofs::Constants::highest_number))]
pub fn print(machine: Machine, words: &[u32], marks: &[Bits], out: &mut [u8]) -> Printed
    ensures { printing_of result out.new ≡ Listing·print (record_of machine) (lent words.now marks.now) out.old }
{
    print_for(machine, Label::HIGHEST.0, words, marks, out)
}

// Prints what the label `viewer` sees of it. Out of line: inlined round the hot loop it costs each step an instruction or more.
#[inline(never)]
pub fn print_for(
    machine: Machine,
    viewer: Bits,
    words: &[u32],
    marks: &[Bits],
    out: &mut [u8],
) -> Printed
    ensures { printing_of result out.new ≡ print_for viewer (record_of machine) (lent words.now marks.now) out.old }
{
    let written = write_whole(machine, viewer, words, marks, out);
    Printed { written, machine }
}

// Writes the listing of a well-formed machine whose memory is whole, where the output is long enough, and tells its length.
#[tactic(auto, using(model::proofs::Ready::whole_lengths, crate::proofs::Answers::size_most), unfolding(model::specs::Listing::print_for, model::specs::Listing::listed, writer::specs::Writing::over))]
fn write_whole(
    machine: Machine,
    viewer: Bits,
    words: &[u32],
    marks: &[Bits],
    out: &mut [u8],
) -> Result<usize, Cause>
    ensures { printing_with result (record_of machine) out.new ≡ print_for viewer (record_of machine) (lent words.now marks.now) out.old }
{
    let fixed = machine.fixed;
    let well_formed = machine.is_well_formed();
    let whole = is_lent_whole(fixed.size, words, marks);
    if !well_formed {
        return Err(Cause::IllFormed);
    }
    if !whole {
        return Err(Cause::ShortMemory);
    }
    let count = listing_length(machine, viewer, words, marks);
    if out.len() < count {
        return Err(Cause::ShortOutput);
    }
    write_listing(out, machine, viewer, words, marks);
    Ok(count)
}

// How many bytes the listing takes: where it would end in an output without a byte.
fn listing_length(machine: Machine, viewer: Bits, words: &[u32], marks: &[Bits]) -> usize
    requires { Entries words.now marks.now machine.fixed.size }
    ensures { result ≡ length (listing_for viewer (state_with machine words.now marks.now)) }
{
    let mut none = [0u8; 0];
    write_listing(&mut none, machine, viewer, words, marks)
}

// ---- writing: each function is lent the output and the place where the line before it ended, and gives the place where
// its own last line ends, whether it fits or not.
// A struct of output and place is no plainer: each contract would also have to say that it keeps its borrowed output.

// Writes the listing.
fn write_listing(
    out: &mut [u8],
    machine: Machine,
    viewer: Bits,
    words: &[u32],
    marks: &[Bits],
) -> usize
    requires { Entries words.now marks.now machine.fixed.size }
    ensures { Placed (listing_for viewer (state_with machine words.now marks.now)) out.old 0 result out.new }
{
    let control = machine.control;
    let Registers { values, labels } = machine.registers;
    let size = machine.fixed.size as usize;
    let mut at = write_head(out, viewer, control);
    at = write_entries(out, at, viewer, R, &values, &labels);
    write_entries(out, at, viewer, W, &words[..size], &marks[..size])
}

// Writes a line.
fn write_line_at(out: &mut [u8], at: usize, letter: u8, numbers: &[u64]) -> usize
    requires { (at ≤ longest) × (length numbers.now ≤ most_fields) }
    ensures { Placed (line letter numbers.now) out.old at result out.new }
{
    if out.len() < at {
        return at + write_line(&mut out[..0], letter, numbers);
    }
    at + write_line(&mut out[at..], letter, numbers)
}

// ---- the E line and the F lines

// Writes them, or a line `H` in their place where the pc label is not seen.
#[tactic(auto, using(texts::proofs::Listing::head_seen), unfolding(model::specs::Seen::within))]
fn write_head(out: &mut [u8], viewer: Bits, control: Control) -> usize
    ensures { Placed (head_for (control_seen viewer control)) out.old 0 result out.new }
{
    let pair = control.pair;
    if Label(pair.pc).flows_to(Label(viewer)) {
        return write_head_lines(out, control);
    }
    let none = [0u64; 0];
    write_line_at(out, 0, H, &none)
}

// Writes them, the older call first.
fn write_head_lines(out: &mut [u8], control: Control) -> usize
    ensures { Placed (head_lines control) out.old 0 result out.new }
{
    let first = control.first;
    let second = control.second;
    let numbers = end_fields(control);
    let mut at = write_line_at(out, 0, E, &numbers);
    at = write_call(out, at, first);
    write_call(out, at, second)
}

// The fields of the E line.
fn end_fields(control: Control) -> [u64; 6]
    ensures { result ≡ end_fields control }
{
    let pair = control.pair;
    [
        control.end as u64,
        control.why as u64,
        control.clock as u64,
        control.pc as u64,
        pair.pc as u64,
        pair.timing as u64,
    ]
}

// Writes the F line of a call, if it is open.
fn write_call(out: &mut [u8], at: usize, call: Call) -> usize
    requires { at ≤ longest }
    ensures { Placed (call_line call) out.old at result out.new }
{
    match call {
        Call::Empty => at,
        Call::Gate(back, pair) => write_line_at(out, at, F, &call_fields(GATE, back, pair, 0)),
        Call::Upcall(back, pair, tick) => write_line_at(
            out,
            at,
            F,
            &call_fields(UPCALL, back, pair, tick),
        ),
    }
}

// The fields of an F line: kind, return pc, pair, end tick.
fn call_fields(kind: u64, back: u32, pair: Pair, tick: u64) -> [u64; 5]
    ensures { result ≡ call_fields kind back pair tick }
{
    [kind, back as u64, pair.pc as u64, pair.timing as u64, tick]
}

// ---- R and W lines

// Writes the lines of some entries.
fn write_entries(
    out: &mut [u8],
    start: usize,
    viewer: Bits,
    letter: u8,
    values: &[u32],
    labels: &[Bits],
) -> usize
    requires labelled { length labels.now ≡ length values.now }
    requires short { start + longest_entry * length values.now ≤ longest }
    ensures { Placed (entry_lines letter (bank_seen viewer (lent values.now labels.now)) 0 (length values.now)) out.old start result out.new }
{
    let mut at = start;
    for (number, (value, label)) in values.iter().zip(labels).enumerate() {
        let entry = Entry {
            number,
            label: *label,
            value: *value,
        };
        at = write_entry(out, at, viewer, letter, entry);
    }
    at
}

// Writes the line of an entry, if it has one.
fn write_entry(out: &mut [u8], at: usize, viewer: Bits, letter: u8, entry: Entry) -> usize
    requires { at ≤ longest }
    ensures { Placed (entry_for letter entry.number (entry_seen viewer entry.label entry.value)) out.old at result out.new }
{
    if is_listed(viewer, entry.label, entry.value) {
        write_line_at(out, at, letter, &entry_fields(entry))
    } else {
        at
    }
}

// The fields of its line: number, label, value.
fn entry_fields(entry: Entry) -> [u64; 3]
    ensures { result ≡ entry.number ∷ entry.label ∷ entry.value ∷ [] }
{
    [entry.number as u64, entry.label as u64, entry.value as u64]
}

// Whether an entry is seen and differs from value 0, label 240.
#[tactic(auto, unfolding(model::specs::Listing::is_listed, model::specs::Seen::within))]
fn is_listed(viewer: Bits, label: Bits, value: u32) -> bool
    ensures { result ≡ (within viewer label && is_listed label value) }
{
    Label(label).flows_to(Label(viewer)) & !is_blank(label, value)
}
