// What the hot loop's ops on registers do: those that write a register, and those that go on elsewhere. Each tells its
// turn, and looks at no memory. Beside them, the ticks of a common op that is looked at alone.
#![tactic(auto)]

ghost use Rattle.std.specs.Prelude.{◌≡◌, true};
ghost use Rattle.model.specs.Word.{compute};
ghost use Rattle.arithmetic.specs.Arithmetic.{arithmetic_of};
ghost use Rattle.turns.specs.Turns.{next, timed, gone, taken, assigned, immediate_taken, combined_taken};
ghost use Rattle.turns.specs.Ticks.{ticks_at};

use arithmetic::{Arithmetic, compute, ticks_of};
use labels::{Bits, Label, may_go};
use model::Pair;
use model::numbers::{REGISTER_COUNT, ZERO_REGISTER};
use parts::stages::Reason;
use parts::word::{a_of, b_of, c_of, n_of, op_of};

// For each register the restrictions of its label, and behind them for each those that its label lacks.
pub const TURNED_COUNT: usize = 32;

// The ticks of a load or a store.
pub const MEMORY_TICKS: u32 = 3;

// What stays the same while the hot loop runs: the size, the pair, whether an upcall is open, and the tick by which an op
// has to finish.
#[derive(Clone, Copy)]
pub struct Context {
    pub size: u32,
    pub pair: Pair,
    pub up: bool,
    pub deadline: u32,
}

// A fetched word, with the pc where it was fetched and the ticks that are left to the deadline, the present one counted,
// beside what stays the same.
#[derive(Clone, Copy)]
pub struct Spot {
    pub context: Context,
    pub word: u32,
    pub pc: u32,
    pub left: u32,
}

// One turn of the loop: it did a step, with the pc that this left and the ticks that it took, or it stopped for a reason.
// A Result, with pc and ticks in a struct in its Ok, costs 3 to 9 in a hundred more instructions a step.
#[derive(Clone, Copy)]
pub enum Turn {
    Going { pc: u32, ticks: u32 },
    Stopping(Reason),
}

// The pc behind a fetched word, in 32 bits: behind a word of memory it is always the next number.
#[tactic(auto, unfolding(crate::specs::Turns::next))]
pub fn next(spot: Spot) -> u32
    ensures { result ≡ next spot }
{
    spot.pc.wrapping_add(1)
}

// An op of so many ticks that goes on at pc, if it finishes by the deadline.
pub fn timed(ticks: u32, pc: u32, left: u32) -> Turn
    ensures { result ≡ timed ticks pc left }
{
    if ticks < left {
        return Turn::Going { pc, ticks };
    }
    Turn::Stopping(Reason::Late)
}

// Register a gets v if the check passed, it isn't register 0 and there is one, in so many ticks. That there is one is no
// test in the machine code where a is a field of a word, which the compiler knows to be below 16.
#[tactic(auto, unfolding(crate::specs::Turns::assigned, model::specs::Ops::writable))]
pub fn assign(
    values: &mut [u32; REGISTER_COUNT],
    spot: Spot,
    a: usize,
    ok: bool,
    v: u32,
    ticks: u32,
) -> Turn
    ensures { taken result values.new ≡ assigned values.old a ok v ticks spot }
{
    if ticks < spot.left {
        if ok & (ZERO_REGISTER < a) {
            if a < REGISTER_COUNT {
                values[a] = v;
            }
        }
    }
    timed(ticks, next(spot), spot.left)
}

// Op 1: register a gets n.
pub fn immediate(
    spot: Spot,
    values: &mut [u32; REGISTER_COUNT],
    turned: &[Bits; TURNED_COUNT],
) -> Turn
    ensures { taken result values.new ≡ immediate_taken spot values.old turned.now }
{
    let pair = spot.context.pair;
    let a = a_of(spot.word);
    let ok = may_go(Label(pair.pc).restrictions(), turned[a + REGISTER_COUNT]);
    assign(values, spot, a, ok, n_of(spot.word), 1)
}

// What an arithmetic op computes, where its check passed: a division that isn't put is not done.
fn computed(f: Arithmetic, ok: bool, x: u32, y: u32) -> u32
    ensures { ok ≡ true → result ≡ compute (arithmetic_of f) x y }
{
    if ok {
        return compute(f, x, y);
    }
    0
}

// The arithmetic ops: what is computed from the registers b and c goes into register a, if the check passes.
pub fn combine(
    f: Arithmetic,
    spot: Spot,
    values: &mut [u32; REGISTER_COUNT],
    turned: &[Bits; TURNED_COUNT],
) -> Turn
    ensures { taken result values.new ≡ combined_taken (arithmetic_of f) spot values.old turned.now }
{
    let pair = spot.context.pair;
    let a = a_of(spot.word);
    let b = b_of(spot.word);
    let c = c_of(spot.word);
    let rc = values[c];
    let both = turned[b] | turned[c];
    let visible = may_go(both, Label(pair.timing).lacking());
    let ok = may_go(
        Label(pair.pc).restrictions() | both,
        turned[a + REGISTER_COUNT],
    );
    let v = computed(f, ok, values[b], rc);
    assign(values, spot, a, ok, v, ticks_of(f, visible, rc))
}

// A branch that is taken or not, or a jump: on at the target if the check passes. In an upcall a failed check stops the
// loop. Taken and not taken are two returns, which the compiler makes less of than of a chosen pc.
#[tactic(auto, unfolding(crate::specs::Turns::gone))]
pub fn go(spot: Spot, ok: bool, taken: bool, target: u32) -> Turn
    ensures { result ≡ gone spot ok taken target }
{
    if ok & taken {
        return timed(1, target, spot.left);
    }
    if (!ok) & spot.context.up {
        return Turn::Stopping(Reason::Failed);
    }
    timed(1, next(spot), spot.left)
}

// The ticks of the common op of the word w, under the timing label t. For any other word it says 1.
// By the format's numbers, as the hot loop's match: an enum made of a number for these five ops would be no plainer.
pub fn ticks_at(
    w: u32,
    t: Bits,
    values: &[u32; REGISTER_COUNT],
    turned: &[Bits; TURNED_COUNT],
) -> u32
    ensures { result ≡ ticks_at w t values.now turned.now }
{
    let b = b_of(w);
    let c = c_of(w);
    match op_of(w) {
        8 => {
            let visible = may_go(turned[b] | turned[c], Label(t).lacking());
            ticks_of(Arithmetic::Multiply, visible, values[c])
        }
        9 => MEMORY_TICKS,
        10 => MEMORY_TICKS,
        23 => ticks_of(Arithmetic::Divide, true, values[c]),
        24 => ticks_of(Arithmetic::Remainder, true, values[c]),
        _ => 1,
    }
}
