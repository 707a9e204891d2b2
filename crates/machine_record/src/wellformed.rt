// Whether a record is well-formed.
ghost use Rattle.std.specs.Prelude.{◌≤◌, ◌≡◌, ◌&&◌, leb};
ghost use Rattle.model.specs.Numbers.{most_gates};
ghost use Rattle.model.specs.WellFormed.{is_valid, size_in_range, limit_in_range, end_in_range, upcall_well_formed, calls_well_formed, gates_valid};

use labels::Label;
use model::numbers::{MOST_GATES, MOST_TICKS, MOST_WORDS, STALLED, UNKNOWN_OP};
use model::{Call, CallGate, Control, Pair};

// Whether a pair is valid.
pub(in crate) fn is_valid(pair: Pair) -> bool
    ensures { result ≡ is_valid pair }
{
    Label(pair.pc).is_valid_pair(Label(pair.timing))
}

// The ranges of what no step changes.
pub(in crate) fn fixed_in_range(size: u32, limit: u32, count: u32) -> bool
    ensures { result ≡ (size_in_range size && limit_in_range limit && leb count most_gates) }
{
    (1..=MOST_WORDS).contains(&size) && (1..=MOST_TICKS).contains(&limit) && count <= MOST_GATES
}

// End and why.
#[tactic(auto, unfolding(model::specs::WellFormed::end_in_range))]
pub(in crate) fn end_in_range(control: Control) -> bool
    ensures { result ≡ end_in_range control }
{
    if control.end == STALLED {
        return (1..=UNKNOWN_OP).contains(&control.why);
    }
    control.end < STALLED && control.why == 0
}

// End ticks are below this number: 2^33.
const END_TICKS: u64 = 8589934592;

// What is asked of an upcall's kept pair and end tick.
#[tactic(auto, unfolding(model::specs::WellFormed::upcall_well_formed))]
fn upcall_well_formed(control: Control, kept: Pair, end: u64) -> bool
    ensures { result ≡ upcall_well_formed control kept end }
{
    is_valid(kept)
        && Label(kept.pc).flows_to(Label(control.pair.pc))
        && Label(kept.timing).flows_to(Label(control.pair.timing))
        && (u64::from(control.clock)..END_TICKS).contains(&end)
}

// The two places for open calls.
pub(in crate) fn calls_well_formed(control: Control) -> bool
    ensures { result ≡ calls_well_formed control control.first control.second }
{
    match (control.first, control.second) {
        (Call::Empty, Call::Empty) => true,
        (Call::Gate(_, pair), Call::Empty) => is_valid(pair),
        (Call::Gate(_, pair), Call::Upcall(_, kept, end)) => {
            is_valid(pair) && upcall_well_formed(control, kept, end)
        }
        (Call::Upcall(_, kept, end), Call::Empty) => upcall_well_formed(control, kept, end),
        _ => false,
    }
}

// Whether the pairs of so many gates are valid. The slots behind them aren't looked at.
pub(in crate) fn gates_valid(gates: [CallGate; MOST_GATES as usize], count: u32) -> bool
    requires { count ≤ most_gates }
    ensures { result ≡ gates_valid gates count }
{
    gates[..count as usize]
        .iter()
        .all(|gate| is_valid(gate.pair))
}
