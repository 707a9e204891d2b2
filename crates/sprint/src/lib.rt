// The hot loop over the common ops: those that only write a value or go on elsewhere. The loop holds the pc and the ticks
// that are left in a local. It does a common op where that finishes by the deadline: the limit, or the end tick of an
// upcall that is open. At anything else it stops and says why.
#![tactic(auto)]

mod memory;
mod ops;

ghost use Rattle.sprint.specs.Sprint.{Sprinted};
ghost use Rattle.std.specs.Prelude.{◌≡◌};

use labels::{Bits, Label, may_go};
use model::numbers::REGISTER_COUNT;
use ops::common;
use parts::stages::Reason;
use parts::word::index;
use turns::{Context, Spot, TURNED_COUNT, Turn};

// Where the loop stands: the pc, and how many ticks are left to the deadline, the present one counted.
#[derive(Clone, Copy)]
pub struct Place {
    pub pc: u32,
    pub left: u32,
}

// Where the loop stopped, and why.
#[derive(Clone, Copy)]
pub struct Pause {
    pub place: Place,
    pub reason: Reason,
}

impl Place {
    // A pause here.
    fn pause(self, reason: Reason) -> Pause
        ensures { result ≡ record { place = self; reason = reason } }
    {
        let place = self;
        Pause { place, reason }
    }
}

// The hot loop. With memory that is lent too short it does nothing.
pub fn sprint(
    context: Context,
    start: Place,
    values: &mut [u32; REGISTER_COUNT],
    turned: &[Bits; TURNED_COUNT],
    words: &mut [u32],
    marks: &[Bits],
) -> Pause
    ensures { Sprinted context start values.old turned.now words.old marks.now result values.new words.new }
{
    let size = index(context.size);
    let pair = context.pair;
    let lacked = Label(pair.pc).lacking();
    let mut place = start;
    if (words.len() < size) | (marks.len() < size) {
        return place.pause(Reason::Out);
    }
    while 0 < place.left {
        if context.size <= place.pc {
            return place.pause(Reason::Outside);
        }
        let at = index(place.pc);
        if !may_go(Label(marks[at]).restrictions(), lacked) {
            return place.pause(Reason::Unreadable);
        }
        let spot = Spot {
            context,
            word: words[at],
            pc: place.pc,
            left: place.left,
        };
        match common(spot, values, turned, words, marks) {
            Turn::Going { pc, ticks } => {
                place.pc = pc;
                place.left -= ticks;
            }
            Turn::Stopping(reason) => return place.pause(reason),
        }
    }
    place.pause(Reason::Out)
}
