// Certifying a text: it is loaded and run to its end, and each step is looked at before it is taken. What is promised of
// the certificate, and why one run speaks for all, stands in the model.
#![tactic(auto)]

ghost use Rattle.std.specs.Prelude.{◌≤◌, ◌≡◌, length, take};
ghost use Rattle.model.specs.Numbers.{most_ticks};
ghost use Rattle.model.specs.Record.{state_of, lent};
ghost use Rattle.certificates.specs.Certificate.{certifying, certify_alone};
ghost use Rattle.machine_record.specs.Struct.{record_of};
ghost use Rattle.certify.specs.Certified.{certificate_of, certifying_of, numbers_in};
ghost use Rattle.certify.specs.Inner.Watch.{first_with, steps_left, Loaded, Watched};

use breaks::{break_of, leads_within};
use engine::{Task, advance};
use header::Refusal;
use labels::Bits;
use loader::{MOST_WORDS, load};
use machine_record::Machine;
use model::Control;
use pacing::Pace;
use release::{has_time, relabelling, releases};
use writer::{X, write_line};

mod breaks;
mod release;

// What breaks a certificate, by its number: an attempt to release, a state at large while a gate leads within, and a state
// whose timing label is outside.
#[derive(Clone, Copy)]
pub enum BreakCause {
    Release = 1,
    Gate = 2,
    Timing = 3,
}

// A break: what it is, its tick, and its place.
#[derive(Clone, Copy)]
pub struct Break {
    pub cause: BreakCause,
    pub tick: u32,
    pub place: u32,
}

// The letter of a certificate's line.
const V: u8 = b'V';

// More bytes than either line has.
pub const OUTPUT: usize = 128;

// The break of a step, or none: an attempt from this place, or the state after the step.
fn first_break(
    label: Bits,
    opened: bool,
    attempted: bool,
    place: u32,
    after: Control,
) -> Option<Break>
    ensures { certificate_of result ≡ first_with label opened attempted place after }
{
    if attempted {
        let tick = after.clock;
        let cause = BreakCause::Release;
        return Some(Break { cause, tick, place });
    }
    break_of(label, opened, after)
}

// How many steps are left to look at, at the most: of an ended record none is.
fn steps_left(limit: u32, control: Control) -> u32
    requires { (control.clock ≤ limit) × (limit ≤ most_ticks) }
    ensures { result ≡ steps_left limit control }
{
    if control.end == 0 {
        limit - control.clock + 1
    } else {
        0
    }
}

// The first break of the run from a loaded machine on. The run goes on to its end behind it.
fn watch(label: Bits, machine: Machine, words: &mut [u32], marks: &[Bits]) -> Option<Break>
    requires { Loaded (state_of (record_of machine) (lent words.old marks.now)) }
    ensures { Watched label (state_of (record_of machine) (lent words.old marks.now)) result words.new marks.now }
{
    let fixed = machine.fixed;
    let mut control = machine.control;
    let mut registers = machine.registers;
    let opened = leads_within(label, fixed);
    let mut found = break_of(label, opened, control);
    let mut left = steps_left(fixed.limit, control);
    while found.is_none() & (0 < left) {
        let pair = control.pair;
        let place = control.pc;
        let word = relabelling(fixed.size, place, pair.pc, words, marks);
        let attempted = has_time(fixed.limit, control) & releases(label, pair.pc, word, &registers);
        let task = Task {
            start: control,
            pace: Pace::Stride,
        };
        control = advance(fixed, task, &mut registers, words, marks);
        found = first_break(label, opened, attempted, place, control);
        left = steps_left(fixed.limit, control);
    }
    let end = fixed.limit as u64;
    let task = Task {
        start: control,
        pace: Pace::Onward(end),
    };
    advance(fixed, task, &mut registers, words, marks);
    found
}

// Certifies a text at a label, in lent memory: the first break of its run, if any. The memory may hold anything: what lies
// below the text's size is set anew, and is left as the run to the end leaves it.
pub fn certify(
    label: Bits,
    text: &[u8],
    words: &mut [u32],
    labels: &mut [Bits],
) -> Result<Option<Break>, Refusal<u32>>
    ensures { certifying_of result words.new labels.new ≡ certifying label text.now (lent words.old labels.old) }
{
    let machine = load(text, words, labels)?;
    Ok(watch(label, machine, words, labels))
}

// The numbers of a certificate: cause, tick and place, each 0 where there is no break.
pub fn numbers_of(found: Option<Break>) -> [u64; 3]
    ensures { result ≡ numbers_in (certificate_of found) }
{
    match found {
        Some(first) => [first.cause as u64, first.tick as u64, first.place as u64],
        None => [0, 0, 0],
    }
}

// The same in a memory of its own, all 0, with the line written that the program `certifying` prints for a text. Gives
// how many bytes it has.
pub fn certify_alone(label: Bits, text: &[u8], out: &mut [u8; OUTPUT]) -> usize
    ensures reply { record { bytes = result; output = out.new } ≡ certify_alone label text.now out.old }
    ensures counted { (result ≤ length out.new) × (result ≡ length (take result out.new)) }
{
    let mut words = [0u32; MOST_WORDS];
    let mut labels: [Bits; MOST_WORDS] = [0; MOST_WORDS];
    match certify(label, text, &mut words, &mut labels) {
        Ok(found) => write_line(out, V, &numbers_of(found)),
        Err(refusal) => {
            let number = refusal.cause.number() as u64;
            let line = refusal.line as u64;
            write_line(out, X, &[number, line])
        }
    }
}
