// The second stage of a step: a decision applied to the control, and to the registers.
#![tactic(auto)]

ghost use Rattle.std.specs.Prelude.{◌≡◌};
ghost use Rattle.model.specs.Registers.{as_bank};
ghost use Rattle.transitions.specs.Transitions.{moved, entered, opened, restored, ended, changed, closing_tick, control_after, labelled, caused, written_back};

use labels::{Bits, Label};
use model::numbers::{CLOCK_SPENT, HALTED, REGISTER_COUNT, STALLED};
use model::{Call, Pair, Registers};
use parts::live::{Frame, Live};
use parts::stages::{Change, Decision};
use std::num::wrapping_add_u32;

// The register that gets the cause by which an upcall closed.
const CAUSE_REGISTER: usize = 15;

// ---- the control. Fields are written in place: a `Live` made anew by `..live` takes 4 to 11 in a hundred more instructions
// a step.

// At another clock and pc.
pub fn moved(mut live: Live, clock: u32, pc: u32) -> Live
    ensures { result ≡ moved live clock pc }
{
    live.clock = clock;
    live.pc = pc;
    live
}

// At another clock, pc and pair.
fn entered(mut live: Live, clock: u32, pc: u32, pair: Pair) -> Live
    ensures { result ≡ entered live clock pc pair }
{
    live.clock = clock;
    live.pc = pc;
    live.pair = pair;
    live
}

// With one more open call.
fn opened(mut live: Live, call: Frame) -> Live
    ensures { result ≡ opened live call }
{
    live.older = live.newest;
    live.newest = call;
    live
}

// At another clock, the newest call closed and its pc and pair restored.
fn restored(mut live: Live, clock: u32) -> Live
    ensures { result ≡ restored live clock }
{
    live.pc = live.newest.back;
    live.pair = live.newest.pair;
    live.clock = clock;
    live.newest = live.older;
    live.older = Frame::none();
    live
}

// At another clock, ended.
fn ended(mut live: Live, clock: u32, end: u8, why: u8) -> Live
    ensures { result ≡ ended live clock end why }
{
    live.clock = clock;
    live.end = end;
    live.why = why;
    live
}

// After a change that leaves this clock.
#[tactic(auto, unfolding(crate::specs::Transitions::changed))]
fn changed(live: Live, clock: u32, change: Change) -> Live
    ensures { result ≡ changed live clock change }
{
    let pair = live.pair;
    let next = wrapping_add_u32(live.pc, 1);
    match change {
        Change::Pass | Change::SetLabel(_, _) => moved(live, clock, next),
        Change::Goto(pc) => moved(live, clock, pc),
        Change::Enter(to) => entered(live, clock, next, to),
        Change::OpenUpcall(back, to, end) => {
            let call = Frame::from(Call::Upcall(back, pair, end));
            entered(opened(live, call), clock, next, to)
        }
        Change::OpenGate(entry, to) => {
            let call = Frame::from(Call::Gate(next, pair));
            entered(opened(live, call), clock, entry, to)
        }
        Change::CloseGate => restored(live, clock),
        Change::Stop => ended(live, clock, HALTED, 0),
    }
}

// The tick past an upcall's end tick.
fn closing_tick(call: Frame, limit: u32) -> u32
    ensures { result ≡ closing_tick call limit }
{
    if call.end < limit as u64 {
        return call.end as u32 + 1;
    }
    limit
}

// After a decision.
#[tactic(auto, unfolding(crate::specs::Transitions::control_after))]
pub fn control_after(live: Live, limit: u32, decision: Decision) -> Live
    ensures { result ≡ control_after live limit decision }
{
    match decision {
        Decision::Spend => ended(live, limit, CLOCK_SPENT, 0),
        Decision::Stall(why) => ended(live, live.clock, STALLED, why),
        Decision::Close(_) => restored(live, closing_tick(live.newest, limit)),
        Decision::Carry(ticks, change) => {
            changed(live, wrapping_add_u32(live.clock, ticks), change)
        }
    }
}

// ---- the registers

// What a change writes: at most a label of a register.
fn write_label(change: Change, labels: &mut [Bits; REGISTER_COUNT])
    ensures { labels.new ≡ labelled change labels.old }
{
    if let Change::SetLabel(a, label) = change {
        labels[a % REGISTER_COUNT] = label;
    }
}

// Closing an upcall, register 15 gets the cause if the timing label flows to its label.
fn write_cause(cause: u8, pair: Pair, registers: &mut Registers)
    ensures { (registers.new.values ≡ caused cause pair registers.old.values registers.old.labels) × (registers.new.labels ≡ registers.old.labels) }
{
    if Label(pair.timing).flows_to(Label(registers.labels[CAUSE_REGISTER])) {
        registers.values[CAUSE_REGISTER] = u32::from(cause);
    }
}

// What a decision writes under this control.
#[tactic(auto, unfolding(crate::specs::Transitions::written_back))]
pub fn write_back(decision: Decision, live: Live, registers: &mut Registers)
    ensures { as_bank registers.new ≡ written_back decision live (as_bank registers.old) }
{
    match decision {
        Decision::Spend | Decision::Stall(_) => {}
        Decision::Close(cause) => write_cause(cause, live.pair, registers),
        Decision::Carry(_, change) => write_label(change, &mut registers.labels),
    }
}
