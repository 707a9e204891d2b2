// Ops 9 and 10, between a register and memory.
ghost use Rattle.std.specs.Prelude.{◌≡◌, ◌&&◌, if◌then◌else◌, nat_lt, slice_index, slice_index_or, slice_set};
ghost use Rattle.principals.specs.Principals.{may_go};
ghost use Rattle.labels.specs.Label.{lacking};
ghost use Rattle.sprint.specs.Inner.Turns.{LoadTurn, StoreTurn};

use labels::{Bits, Label, may_go};
use model::numbers::REGISTER_COUNT;
use parts::word::{a_of, b_of, index};
use turns::{MEMORY_TICKS, Spot, TURNED_COUNT, Turn, assign, next, timed};

// What stands at a place, and x where there is nothing. The hot loop runs on memory that is lent whole, so the compiler
// makes no such test where a place is below the size.
fn item_or<T: Copy>(items: &[T], at: usize, x: T) -> T
    ensures { result ≡ slice_index_or items.now at x }
{
    items.get(at).copied().unwrap_or(x)
}

// Op 9: register a gets word Rb, where that is inside memory and the check passes.
pub(in crate) fn load(
    spot: Spot,
    values: &mut [u32; REGISTER_COUNT],
    turned: &[Bits; TURNED_COUNT],
    words: &[u32],
    marks: &[Bits],
) -> Turn
    ensures { LoadTurn spot values.old turned.now words.now marks.now result values.new }
{
    let context = spot.context;
    let pair = context.pair;
    let a = a_of(spot.word);
    let b = b_of(spot.word);
    let rb = values[b];
    if rb < context.size {
        let at = index(rb);
        let held = Label(pair.pc).restrictions()
            | turned[b]
            | Label(item_or(marks, at, 0)).restrictions();
        let ok = may_go(held, turned[a + REGISTER_COUNT]);
        return assign(values, spot, a, ok, item_or(words, at, 0), MEMORY_TICKS);
    }
    assign(values, spot, a, false, 0, MEMORY_TICKS)
}

// The word at a place gets v, where there is one.
fn put(words: &mut [u32], at: usize, v: u32)
    ensures { words.new ≡ slice_set words.old at v }
{
    if at < words.len() {
        words[at] = v;
    }
}

// Word `to` gets v, where that is inside memory and what is under these restrictions may go there.
fn put_word(words: &mut [u32], marks: &[Bits], size: u32, to: u32, held: Bits, v: u32)
    ensures { words.new ≡ (if nat_lt to size && may_go held (lacking (slice_index marks.now to)) then slice_set words.old to v else words.old) }
{
    if to < size {
        let at = index(to);
        if may_go(held, Label(item_or(marks, at, 0)).lacking()) {
            put(words, at, v);
        }
    }
}

// Op 10: word Rb gets Ra.
pub(in crate) fn store(
    spot: Spot,
    values: &[u32; REGISTER_COUNT],
    turned: &[Bits; TURNED_COUNT],
    words: &mut [u32],
    marks: &[Bits],
) -> Turn
    ensures { StoreTurn spot values.now turned.now words.old marks.now result words.new }
{
    let context = spot.context;
    let pair = context.pair;
    let a = a_of(spot.word);
    let b = b_of(spot.word);
    if MEMORY_TICKS < spot.left {
        let held = Label(pair.pc).restrictions() | turned[b] | turned[a];
        put_word(words, marks, context.size, values[b], held, values[a]);
    }
    timed(MEMORY_TICKS, next(spot), spot.left)
}
