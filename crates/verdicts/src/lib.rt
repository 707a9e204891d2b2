// The verdict on a line: the outcome of its tests, tried in the paper's order.
#![tactic(auto)]

ghost use Rattle.std.specs.Prelude.{◌≡◌, length};
ghost use Rattle.causes.specs.Causes.{outcome_of};
ghost use Rattle.causes.specs.Tests.{first_refusal};
ghost use Rattle.model.specs.Record.{Bank};
ghost use Rattle.model.specs.Load.{header_in_range, gate_in_range, entry_in_range, rank, in_order, rising, header_tests, line_tests, last_of};
ghost use Rattle.verdicts.specs.Inner.Verdicts.{gate_tests, entry_tests, register_tests};

use causes::Cause;
use labels::{Bits, Label};
use model::format::Line;
use model::judging::{Header, Kind, Last};
use model::numbers;
use model::numbers::{MOST_GATES, VALUE_COUNT};

// The most words of a machine.
const MOST_WORDS: u64 = numbers::MOST_WORDS as u64;

// The most ticks of a limit.
const MOST_TICKS: u64 = numbers::MOST_TICKS as u64;

// Labels are below this number.
const LABEL_COUNT: u64 = labels::LABEL_COUNT as u64;

// How many registers there are.
const REGISTER_COUNT: u32 = numbers::REGISTER_COUNT as u32;

// The register that no line sets.
const ZERO_REGISTER: u64 = numbers::ZERO_REGISTER as u64;

// What the line behind the M line is tried against.
pub const BEHIND_HEADER: Last = Last {
    kind: Kind::HeaderLine,
    number: 0,
};

// Whether the numbers of an M line are in their ranges.
#[tactic(auto, unfolding(model::specs::Load::header_in_range, model::specs::Ops::is_label))]
fn header_in_range(header: Header) -> bool
    ensures { result ≡ header_in_range header }
{
    let size_fits = (1 <= header.size) & (header.size <= MOST_WORDS);
    let limit_fits = (1 <= header.limit) & (header.limit <= MOST_TICKS);
    size_fits
        & (header.errorpc < VALUE_COUNT)
        & (header.pc < VALUE_COUNT)
        & (header.p < LABEL_COUNT)
        & (header.t < LABEL_COUNT)
        & limit_fits
}

// Whether the numbers of a G line are in their ranges, and it isn't the ninth.
#[tactic(auto, unfolding(model::specs::Load::gate_in_range, model::specs::Ops::is_label))]
fn gate_in_range(count: u32, pc: u64, p: u64, t: u64) -> bool
    ensures { result ≡ gate_in_range count pc p t }
{
    (pc < VALUE_COUNT) & (p < LABEL_COUNT) & (t < LABEL_COUNT) & (count < MOST_GATES)
}

// Whether the numbers of an R or W line are in their ranges.
#[tactic(auto, unfolding(model::specs::Load::entry_in_range, model::specs::Ops::is_label))]
fn entry_in_range(bound: u32, k: u64, label: u64, value: u64) -> bool
    ensures { result ≡ entry_in_range bound k label value }
{
    (k < bound as u64) & (label < LABEL_COUNT) & (value < VALUE_COUNT)
}

// The place of a kind in the order of kinds, by its number as in the definition (`rank`): a derived order would hide it in
// the order of the cases.
fn rank(kind: Kind) -> u8
    ensures { result ≡ rank kind }
{
    match kind {
        Kind::HeaderLine => 0,
        Kind::GateLine => 1,
        Kind::RegisterLine => 2,
        Kind::WordLine => 3,
    }
}

// Whether a line of this kind is in order behind the last one.
#[tactic(auto, unfolding(model::specs::Load::in_order))]
fn is_in_order(last: Last, kind: Kind) -> bool
    ensures { result ≡ in_order last kind }
{
    let before = last.kind;
    rank(before) <= rank(kind)
}

// Whether the number of a line of this kind is rising.
#[tactic(auto, unfolding(model::specs::Load::rising))]
fn is_rising(last: Last, kind: Kind, k: u64) -> bool
    ensures { result ≡ rising last kind k }
{
    let before = last.kind;
    !(rank(before) == rank(kind)) | (last.number < k)
}

// The verdict on an M line: its ranges, its pair, the lent memory.
#[tactic(auto, using(texts::proofs::Ranges::header_range), unfolding(model::specs::Load::header_tests, causes::specs::Tests::first_refusal, model::specs::WellFormed::lent_whole))]
pub fn header_verdict(header: Header, words: usize, labels: usize) -> Result<(), Cause>
    ensures { (m : Bank) → length m.values ≡ words → length m.labels ≡ labels → outcome_of result ≡ first_refusal (header_tests header m) }
{
    let lent_whole = (header.size <= words as u64) & (header.size <= labels as u64);
    if !header_in_range(header) {
        return Err(Cause::OutOfRange);
    }
    if !Label(header.p as Bits).is_valid_pair(Label(header.t as Bits)) {
        return Err(Cause::InvalidPair);
    }
    if !lent_whole {
        return Err(Cause::ShortMemory);
    }
    Ok(())
}

// The verdict on a G line behind so many gates: its kind, its ranges, its pair.
#[tactic(auto, using(texts::proofs::Ranges::gate_range), unfolding(causes::specs::Tests::first_refusal))]
fn gate_verdict(count: u32, last: Last, pc: u64, p: u64, t: u64) -> Result<(), Cause>
    ensures { outcome_of result ≡ first_refusal (gate_tests count last pc p t) }
{
    if !is_in_order(last, Kind::GateLine) {
        return Err(Cause::OutOfOrder);
    }
    if !gate_in_range(count, pc, p, t) {
        return Err(Cause::OutOfRange);
    }
    if !Label(p as Bits).is_valid_pair(Label(t as Bits)) {
        return Err(Cause::GatePair);
    }
    Ok(())
}

// The verdict on an R or W line, whose number is to be below the bound: its kind, its ranges, its number.
#[tactic(auto, unfolding(causes::specs::Tests::first_refusal))]
fn entry_verdict(
    kind: Kind,
    bound: u32,
    last: Last,
    k: u64,
    label: u64,
    value: u64,
) -> Result<(), Cause>
    ensures { outcome_of result ≡ first_refusal (entry_tests kind bound last k label value) }
{
    if !is_in_order(last, kind) {
        return Err(Cause::OutOfOrder);
    }
    if !entry_in_range(bound, k, label, value) {
        return Err(Cause::OutOfRange);
    }
    if !is_rising(last, kind, k) {
        return Err(Cause::OutOfOrder);
    }
    Ok(())
}

// The verdict on an R line: that of its entry, and then whether it is for register 0.
#[tactic(auto, using(causes::proofs::Order::behind_passed, causes::proofs::Order::behind_refused, std::proofs::lemmas::Result::err_from_is_err_and), unfolding(causes::specs::Tests::first_refusal, model::specs::Ops::writable))]
fn register_verdict(last: Last, k: u64, label: u64, value: u64) -> Result<(), Cause>
    ensures { outcome_of result ≡ first_refusal (register_tests last k label value) }
{
    entry_verdict(Kind::RegisterLine, REGISTER_COUNT, last, k, label, value)?;
    if ZERO_REGISTER < k {
        Ok(())
    } else {
        Err(Cause::ZeroRegister)
    }
}

// The verdict on a line behind the first, for a machine of this size with so many gates.
#[tactic(auto, unfolding(model::specs::Load::line_tests, causes::specs::Tests::first_refusal))]
pub fn line_verdict(size: u32, count: u32, last: Last, line: Line) -> Result<(), Cause>
    ensures { outcome_of result ≡ first_refusal (line_tests size count last line) }
{
    match line {
        Line::M(_, _, _, _, _, _) => Err(Cause::OutOfOrder),
        Line::G(pc, p, t) => gate_verdict(count, last, pc, p, t),
        Line::R(k, label, value) => register_verdict(last, k, label, value),
        Line::W(k, label, value) => entry_verdict(Kind::WordLine, size, last, k, label, value),
        Line::Malformed => Err(Cause::MalformedLine),
    }
}

// What the line behind this one is tried against.
pub fn last_of(line: Line) -> Last
    ensures { result ≡ last_of line }
{
    match line {
        Line::M(_, _, _, _, _, _) => BEHIND_HEADER,
        Line::G(_, _, _) => Last {
            kind: Kind::GateLine,
            number: 0,
        },
        Line::R(k, _, _) => Last {
            kind: Kind::RegisterLine,
            number: k,
        },
        Line::W(k, _, _) => Last {
            kind: Kind::WordLine,
            number: k,
        },
        Line::Malformed => BEHIND_HEADER,
    }
}
