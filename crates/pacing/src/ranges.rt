// Whether the steps can be done: the ranges that they rest on, that memory is lent whole, and that the open calls are as a
// machine stacks them.
ghost use Rattle.std.specs.Prelude.{◌≡◌, ◌&&◌, []};
ghost use Rattle.model.specs.Record.{state_from};
ghost use Rattle.parts.specs.Calls.{newest_of};
ghost use Rattle.parts.specs.Live.{stacks};
ghost use Rattle.pacing.specs.Fitting.{is_timely, fitting};

use labels::Bits;
use model::numbers::{MOST_GATES, MOST_TICKS, MOST_WORDS};
use model::{Call, Control, Fixed};
use parts::calls::OpenCall;
use parts::word::index;

// Whether a call, if it is an upcall, ends at the clock or later.
fn is_timely(clock: u32, call: Call) -> bool
    ensures { result ≡ is_timely clock call }
{
    match call {
        Call::Empty | Call::Gate(_, _) => true,
        Call::Upcall(_, _, end) => clock as u64 <= end,
    }
}

// Whether the open calls are as a machine stacks them: an upcall lies on a gate call or on none.
fn calls_fit(clock: u32, first: Call, second: Call) -> bool
    ensures { result ≡ (stacks first second && is_timely clock (newest_of first second)) }
{
    match second {
        Call::Empty => is_timely(clock, first),
        Call::Gate(_, _) => false,
        Call::Upcall(_, _, end) => first.is_gate() & (clock as u64 <= end),
    }
}

// Whether the steps can be done with these words and labels.
#[tactic(auto, unfolding(model::specs::WellFormed::lent_whole))]
pub fn is_fitting(fixed: Fixed, start: Control, words: &[u32], marks: &[Bits]) -> bool
    ensures { result ≡ fitting (state_from fixed start [] [] words.now marks.now) }
{
    let first = start.first;
    let second = start.second;
    let size = index(fixed.size);
    let whole = (size <= words.len()) & (size <= marks.len());
    (fixed.size <= MOST_WORDS)
        & (fixed.limit <= MOST_TICKS)
        & (fixed.count <= MOST_GATES)
        & (start.clock <= fixed.limit)
        & whole
        & calls_fit(start.clock, first, second)
}
