// The steps of a machine that fits: the hot loop, then one step of what it stopped at, in turn.
ghost use Rattle.std.specs.Prelude.{◌+◌, ◌-◌, ◌≤◌, ◌≡◌, ltb, length};
ghost use Rattle.model.specs.Numbers.{most_ticks};
ghost use Rattle.model.specs.Registers.{state_over};
ghost use Rattle.parts.specs.Stages.{Applies};
ghost use Rattle.pacing.specs.Fitting.{InRanges};
ghost use Rattle.engine.specs.Advance.{paced};
ghost use Rattle.engine.specs.Inner.Drive.{context_of, Alone, finish_of};

use crate::Task;
use crate::turned::turn;
use decisions::decide;
use labels::Bits;
use model::numbers::REGISTER_COUNT;
use model::{Control, Fixed, Registers};
use pacing::setting::sets_label;
use pacing::{looked_at, relabels};
use parts::calls::{OpenCall, deadline_of};
use parts::live::Live;
use parts::stages::Decision;
use parts::word::index;
use sprint::{Place, sprint};
use transitions::{control_after, moved, write_back};
use turns::{Context, TURNED_COUNT, ticks_at};

// ---- before the hot loop

// The deadline, or where the op at the pc is looked at the tick at which it finishes if that is nearer: of one step alone
// the hot loop then does no other op behind it.
fn alone(
    deadline: u32,
    size: u32,
    live: Live,
    values: &[u32; REGISTER_COUNT],
    turned: &[Bits; TURNED_COUNT],
    words: &[u32],
) -> u32
    requires { (size ≤ length words.now) × (live.clock ≤ deadline) × (deadline ≤ most_ticks) }
    ensures { Alone deadline size live values.now turned.now words.now result }
{
    if live.pc < size {
        let word = words[index(live.pc)];
        let finish = live.clock + ticks_at(word, live.pair.timing, values, turned);
        return finish.min(deadline);
    }
    deadline
}

// ---- behind the hot loop

// The clock that a decision leaves.
fn finish_of(decision: Decision, live: Live, limit: u32) -> u32
    requires { Applies decision live limit }
    ensures { result ≡ finish_of decision live limit }
{
    match decision {
        Decision::Spend => limit,
        Decision::Stall(_) => live.clock,
        Decision::Close(_) => live.newest.end as u32 + 1,
        Decision::Carry(ticks, _) => live.clock + ticks,
    }
}

// Whether that is past the tick. Where the tick is the limit, as for a step and a run, nothing has to be looked at.
fn is_barred(tick: u32, decision: Decision, live: Live, limit: u32) -> bool
    requires { Applies decision live limit × (live.clock ≤ limit) }
    ensures { result ≡ ltb tick (finish_of decision live limit) }
{
    tick < limit && tick < finish_of(decision, live, limit)
}

// ---- both in turn

// What the hot loop is told.
fn context_of(size: u32, live: Live, deadline: u32) -> Context
    ensures { result ≡ context_of size live deadline }
{
    Context {
        size,
        pair: live.pair,
        up: live.newest.is_upcall(),
        deadline,
    }
}

// Where the hot loop starts.
fn place_of(live: Live, deadline: u32) -> Place
    requires { (live.clock ≤ deadline) × (deadline ≤ most_ticks) }
    ensures { result ≡ record { pc = live.pc; left = deadline + 1 - live.clock } }
{
    Place {
        pc: live.pc,
        left: deadline + 1 - live.clock,
    }
}

// The steps that are asked for. The lent words and their labels stay two slices, as the callers lend them: they are only
// handed on here.
pub(in crate) fn drive(
    fixed: Fixed,
    task: Task,
    registers: &mut Registers,
    words: &mut [u32],
    marks: &[Bits],
) -> Control
    requires { InRanges fixed task.start words.old marks.now }
    ensures { state_over fixed result registers.new words.new marks.now ≡ paced task.pace (state_over fixed task.start registers.old words.old marks.now) }
{
    let start = task.start;
    let pace = task.pace;
    let once = pace.is_once();
    let single = once | pace.is_stride();
    let looked = looked_at(once, fixed.size);
    let limit = fixed.limit;
    let tick = pace.tick(limit);
    let mut turned = turn(&registers.labels);
    let mut live = Live::from(start);
    if tick < live.clock {
        return start;
    }
    while live.end == 0 {
        let due = deadline_of(tick, live.newest);
        let deadline = alone(due, looked, live, &registers.values, &turned, words);
        let context = context_of(fixed.size, live, deadline);
        let place = place_of(live, deadline);
        let pause = sprint(context, place, &mut registers.values, &turned, words, marks);
        let there = pause.place;
        let reason = pause.reason;
        live = moved(live, deadline + 1 - there.left, there.pc);
        if (there.left < place.left) & single & (once | relabels(reason)) {
            return Control::from(live);
        }
        let decision = decide(reason, fixed, live, registers);
        if is_barred(tick, decision, live, limit) {
            return Control::from(live);
        }
        write_back(decision, live, registers);
        live = control_after(live, limit, decision);
        if single {
            return Control::from(live);
        }
        if sets_label(decision) {
            turned = turn(&registers.labels);
        }
    }
    Control::from(live)
}
