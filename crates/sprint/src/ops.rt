// One turn of the hot loop: the common op of a fetched word.
ghost use Rattle.std.specs.Prelude.{◌<◌};
ghost use Rattle.sprint.specs.Inner.Turns.{ClockTurn, Common, Forward};

use crate::memory::{load, store};
use arithmetic::Arithmetic;
use labels::{Bits, Label, may_go};
use model::numbers::REGISTER_COUNT;
use parts::stages::Reason;
use parts::word::{a_of, b_of, n_of, op_of};
use turns::{Spot, TURNED_COUNT, Turn, assign, combine, go, immediate};

// A word without an op.
const NO_OP: u32 = 0;

// Op 14: register a gets the clock, which the ticks that are left tell.
fn read_clock(spot: Spot, values: &mut [u32; REGISTER_COUNT], turned: &[Bits; TURNED_COUNT]) -> Turn
    ensures { ClockTurn spot values.old turned.now result values.new }
{
    let context = spot.context;
    let pair = context.pair;
    let a = a_of(spot.word);
    let held = Label(pair.pc).restrictions() | Label(pair.timing).restrictions();
    let ok = may_go(held, turned[a + REGISTER_COUNT]);
    let clock = context.deadline.wrapping_add(1).wrapping_sub(spot.left);
    assign(values, spot, a, ok, clock, 1)
}

// The common op of a fetched word. Op 0 has an arm of its own, so that the arms are counted from 0 and the op's number is
// the place of its arm. What else such a word holds doesn't matter.
// An enum of the ops, made of the number first, costs 7 to 35 in a hundred more instructions a step.
// Registers and memory stay references: a struct that holds a `&mut` asks a clause of each function that takes it.
pub(in crate) fn common(
    spot: Spot,
    values: &mut [u32; REGISTER_COUNT],
    turned: &[Bits; TURNED_COUNT],
    words: &mut [u32],
    marks: &[Bits],
) -> Turn
    requires { spot.pc < spot.context.size }
    ensures { Common spot values.old turned.now words.old marks.now result values.new words.new × Forward spot result }
{
    let w = spot.word;
    let context = spot.context;
    let pair = context.pair;
    let p = Label(pair.pc);
    let a = a_of(w);
    let b = b_of(w);
    match op_of(w) {
        0 => Turn::Stopping(Reason::Rest(NO_OP)),
        1 => immediate(spot, values, turned),
        2 => combine(Arithmetic::Add, spot, values, turned),
        3 => combine(Arithmetic::Subtract, spot, values, turned),
        4 => combine(Arithmetic::And, spot, values, turned),
        5 => combine(Arithmetic::Or, spot, values, turned),
        6 => combine(Arithmetic::Xor, spot, values, turned),
        7 => combine(Arithmetic::Less, spot, values, turned),
        8 => combine(Arithmetic::Multiply, spot, values, turned),
        9 => load(spot, values, turned, words, marks),
        10 => store(spot, values, turned, words, marks),
        11 => {
            let ok = may_go(turned[a] | turned[b], p.lacking());
            go(spot, ok, values[a] == values[b], n_of(w))
        }
        12 => {
            let ok = may_go(turned[a] | turned[b], p.lacking());
            go(spot, ok, values[a] < values[b], n_of(w))
        }
        13 => {
            let ok = may_go(turned[b], p.lacking());
            go(spot, ok, true, values[b])
        }
        14 => read_clock(spot, values, turned),
        23 => combine(Arithmetic::Divide, spot, values, turned),
        24 => combine(Arithmetic::Remainder, spot, values, turned),
        _ => Turn::Stopping(Reason::Rest(w)),
    }
}
