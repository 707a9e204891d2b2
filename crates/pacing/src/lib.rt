// How far the steps go that are asked for: by which tick each has to finish, and where they stop. Beside it what the
// engine asks before its first step and around its hot loop. Nothing here asks anything of its caller.
#![tactic(auto)]

pub mod ranges;
pub mod setting;

ghost use Rattle.std.specs.Prelude.{◌≤◌, ◌≡◌, cond};
ghost use Rattle.pacing.specs.Pace.{is_once, is_stride, tick_of, relabels_at};

use parts::calls::nearer;
use parts::stages::Reason;
use parts::word::op_of;

// The number of the op that relabels.
const RELABEL: u32 = 16;

// How far the steps go.
#[derive(Clone, Copy)]
pub enum Pace {
    // one step
    Once,
    // to the end, but no step that finishes past the tick
    Onward(u64),
    // common ops for as long as they come, and one step of what comes then
    Stride,
}

impl Pace {
    pub fn is_once(self) -> bool
        ensures { result ≡ is_once self }
    {
        matches!(self, Pace::Once)
    }

    pub fn is_stride(self) -> bool
        ensures { result ≡ is_stride self }
    {
        matches!(self, Pace::Stride)
    }

    // The tick by which a step has to finish.
    pub fn tick(self, limit: u32) -> u32
        ensures { (result ≡ tick_of self limit) × (result ≤ limit) }
    {
        match self {
            Pace::Once | Pace::Stride => limit,
            Pace::Onward(tick) => nearer(tick, limit),
        }
    }
}

// Of how many words the op at the pc is looked at: of none, but for one step alone.
pub fn looked_at(once: bool, size: u32) -> u32
    ensures { result ≡ cond once size 0 }
{
    if once { size } else { 0 }
}

// Whether the hot loop stopped at a word that relabels: a stride that has done a step ends there.
pub fn relabels(reason: Reason) -> bool
    ensures { result ≡ relabels_at reason }
{
    matches!(reason, Reason::Rest(w) if op_of(w) == RELABEL)
}
