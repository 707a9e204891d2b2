// The first stage of a step where the hot loop stopped: what is to be done. That is for ops 15 to 22, for failed
// fetches, for upcalls that close, for stalls and for spent time. Nothing here changes the machine.
#![tactic(auto, using(changes::proofs::Calling::in_upcall_lem, changes::proofs::Calling::end_tick_lem), unfolding(model::specs::Step::fault, model::specs::Step::attempt, model::specs::Step::in_limit, model::specs::Step::beyond_limit, model::specs::Step::finish, model::specs::Ops::table))]

ghost use Rattle.std.specs.Prelude.{ℕ, ◌≡◌, List};
ghost use Rattle.model.specs.declared.Fixed.{Fixed};
ghost use Rattle.model.specs.declared.Registers.{Registers};
ghost use Rattle.model.specs.Registers.{state_over};
ghost use Rattle.model.specs.Word.{end_upcall, halt};
ghost use Rattle.model.specs.Step.{fault, fetched, plan};
ghost use Rattle.parts.specs.declared.stages.Reason.{Reason};
ghost use Rattle.parts.specs.declared.stages.Reason.TheVariants.{Rest};
ghost use Rattle.parts.specs.Live.{control_of};
ghost use Rattle.parts.specs.Stages.{decision_of, late_of, plan_at, plan_for, HasNext, Applies};
ghost use Rattle.decisions.specs.Decisions.{decided};
ghost use Rattle.decisions.specs.Inner.Deciding.{InTime, Decides, Limited};

use changes::calls::{call_gate, return_gate, upcall};
use changes::rows::{Rule, set_label, set_pair};
use model::numbers::{
    BY_FAILURE, BY_ITS_END, BY_SPENT_TIME, OUTSIDE_MEMORY, UNKNOWN_OP, UNREADABLE,
};
use model::{Fixed, Registers};
use parts::calls::OpenCall;
use parts::live::Live;
use parts::stages::{Change, Decision, Reason};
use parts::word::op_of;

// A change in so many ticks, unless it finishes past the end tick of the upcall.
fn in_time(live: Live, ticks: u32, change: Change) -> Decision
    ensures { InTime live ticks change result }
{
    let finish = u64::from(live.clock) + u64::from(ticks);
    if live.newest.is_upcall() && live.newest.end < finish {
        return Decision::Close(BY_SPENT_TIME);
    }
    Decision::Carry(ticks, change)
}

// A failed fetch.
fn fault(live: Live, errorpc: u32, why: u8) -> Decision
    ensures { (reason : Reason) (fixed : Fixed) (registers : Registers) → fixed.errorpc ≡ errorpc → Decides reason (λ s. fault s why) fixed live registers result }
{
    if live.newest.is_upcall() {
        return Decision::Close(BY_FAILURE);
    }
    if live.pc == errorpc {
        return Decision::Stall(why);
    }
    Decision::Carry(1, Change::Goto(errorpc))
}

// An op that would finish past the deadline.
fn late(live: Live) -> Decision
    ensures { (reason : Reason) (fixed : Fixed) (registers : Registers) → Decides reason late_of fixed live registers result }
{
    if live.newest.is_upcall() {
        Decision::Close(BY_SPENT_TIME)
    } else {
        Decision::Spend
    }
}

// Op 19.
fn end_upcall(live: Live) -> Decision
    ensures { (w : ℕ) (fixed : Fixed) (registers : Registers) → Decides (Rest w) (λ s. plan s (fetched w end_upcall)) fixed live registers result }
{
    if live.newest.is_upcall() {
        Decision::Close(BY_ITS_END)
    } else {
        Decision::Carry(1, Change::Pass)
    }
}

// Op 22.
fn halt(live: Live) -> Decision
    ensures { (w : ℕ) (fixed : Fixed) (registers : Registers) → Decides (Rest w) (λ s. plan s (fetched w halt)) fixed live registers result }
{
    if live.newest.is_upcall() {
        Decision::Close(BY_FAILURE)
    } else {
        Decision::Carry(1, Change::Stop)
    }
}

// The ops 15 to 22, and an unknown one. A common op, which the hot loop does, is unknown here. The arms are the numbers of
// the format, and the calls their names: constants would say each name twice.
fn rest(w: u32, fixed: Fixed, live: Live, registers: &Registers) -> Decision
    ensures { Decides (Rest w) (plan_at w) fixed live registers.now result }
{
    match op_of(w) {
        15 => in_time(live, 2, set_label(Rule::Raise, w, live, registers)),
        16 => in_time(live, 2, set_label(Rule::Relabel, w, live, registers)),
        17 => in_time(live, 2, set_pair(w, live, registers)),
        18 => in_time(live, 2, upcall(w, live, registers)),
        19 => end_upcall(live),
        20 => in_time(live, 4, call_gate(w, fixed, live, registers)),
        21 => in_time(live, 4, return_gate(live)),
        22 => halt(live),
        _ => fault(live, fixed.errorpc, UNKNOWN_OP),
    }
}

// What is to be done for a reason to stop, but for the limit.
fn plan(reason: Reason, fixed: Fixed, live: Live, registers: &Registers) -> Decision
    ensures { Decides reason (plan_for reason) fixed live registers.now result }
{
    match reason {
        Reason::Out => Decision::Spend,
        Reason::Late => late(live),
        Reason::Outside => fault(live, fixed.errorpc, OUTSIDE_MEMORY),
        Reason::Unreadable => fault(live, fixed.errorpc, UNREADABLE),
        Reason::Failed => fault(live, fixed.errorpc, UNKNOWN_OP),
        Reason::Rest(w) => rest(w, fixed, live, registers),
    }
}

// The decision held against the limit: where it finishes beyond, or the limit is reached, the clock is spent.
fn in_limit(decision: Decision, live: Live, limit: u32) -> Decision
    ensures { Limited decision live limit result }
{
    let clock = live.clock;
    let last = u64::from(limit);
    match decision {
        Decision::Stall(_) if clock < limit => decision,
        Decision::Close(_) if clock != limit && live.newest.end < last => decision,
        Decision::Carry(ticks, _) if u64::from(clock) + u64::from(ticks) <= last => decision,
        _ => Decision::Spend,
    }
}

// What is to be done for a reason to stop.
pub fn decide(reason: Reason, fixed: Fixed, live: Live, registers: &Registers) -> Decision
    ensures { ((words marks : List ℕ) → decision_of result ≡ decided reason (state_over fixed (control_of live) registers.now words marks)) × (HasNext reason live.pc → Applies result live fixed.limit) }
{
    let decision = plan(reason, fixed, live, registers);
    in_limit(decision, live, fixed.limit)
}
