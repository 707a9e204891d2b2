// Ops 18, 20 and 21, which open and close calls: what they change, if their checks pass.
#![tactic(auto, using(parts::proofs::Frames::newest_is, crate::proofs::Calling::in_upcall_lem, crate::proofs::Calling::kept_pair_lem), unfolding(model::specs::Ops::table, model::specs::Ops::may_upcall, model::specs::Ops::may_call_gate, model::specs::Ops::may_return, model::specs::Record::value_at, model::specs::Record::label_at))]

ghost use Rattle.std.specs.Prelude.{ℕ, ◌<◌, ◌≡◌, ◌&&◌, List, get_or};
ghost use Rattle.labels.specs.Label.{flows, join};
ghost use Rattle.model.specs.declared.Fixed.{Fixed};
ghost use Rattle.model.specs.Numbers.{value_count};
ghost use Rattle.model.specs.Record.{state_from};
ghost use Rattle.model.specs.Registers.{state_over};
ghost use Rattle.model.specs.WellFormed.{no_gate};
ghost use Rattle.model.specs.Word.{upcall, gate_call, gate_return};
ghost use Rattle.parts.specs.Live.{control_of};
ghost use Rattle.parts.specs.Stages.{change_of};
ghost use Rattle.changes.specs.Changes.{changed, FitsIn};

use crate::rows::new_pair;
use labels::{Bits, Label};
use model::{CallGate, Fixed, Pair, Registers};
use parts::calls::OpenCall;
use parts::live::Live;
use parts::stages::Change;
use parts::word::{a_of, b_of, d_of, index};

// Whether the join of the pair flows to the new pc label, and the labels of an upcall's length and return pc may be
// read.
fn may_upcall(pair: Pair, pc: Bits, la: Bits, ld: Bits) -> bool
    ensures { result ≡ (flows (join pair.pc pair.timing) pc && flows la pair.pc && flows ld pair.pc) }
{
    Label(pair.pc).join(Label(pair.timing)).flows_to(Label(pc))
        & Label(la).flows_to(Label(pair.pc))
        & Label(ld).flows_to(Label(pair.pc))
}

// Op 18.
pub fn upcall(w: u32, live: Live, registers: &Registers) -> Change
    ensures { ((fixed : Fixed) (words marks : List ℕ) → change_of result ≡ changed upcall w (state_over fixed (control_of live) registers.now words marks)) × FitsIn 2 live result }
{
    let a = a_of(w);
    let d = d_of(w);
    if !live.newest.is_upcall()
        && let Some(to) = new_pair(w, live, registers)
        && may_upcall(live.pair, to.pc, registers.labels[a], registers.labels[d])
    {
        let end = u64::from(live.clock) + 2 + u64::from(registers.values[a]);
        return Change::OpenUpcall(registers.values[d], to, end);
    }
    Change::Pass
}

// Whether a gate with this pair may be called. Whether the pair is valid isn't tried: in a well-formed record each
// gate's is.
fn may_enter(pair: Pair, lb: Bits, p: Bits) -> bool
    ensures { result ≡ (flows pair.pc p && flows pair.timing p && flows lb p) }
{
    Label(pair.pc).flows_to(Label(p))
        & Label(pair.timing).flows_to(Label(p))
        & Label(lb).flows_to(Label(p))
}

// What stands for a gate behind the last.
const NO_GATE: CallGate = CallGate {
    entry: 0,
    pair: Pair { pc: 0, timing: 0 },
};

// The gate of a number. Behind the last there is none.
fn gate_at(fixed: Fixed, number: u32) -> CallGate
    ensures { result ≡ get_or fixed.gates number no_gate }
{
    fixed.gates.get(index(number)).copied().unwrap_or(NO_GATE)
}

// Op 20.
pub fn call_gate(w: u32, fixed: Fixed, live: Live, registers: &Registers) -> Change
    ensures { ((words marks : List ℕ) → change_of result ≡ changed gate_call w (state_over fixed (control_of live) registers.now words marks)) × FitsIn 4 live result }
{
    let b = b_of(w);
    let rb = registers.values[b];
    let gate = gate_at(fixed, rb);
    if live.newest.is_empty()
        && rb < fixed.count
        && may_enter(gate.pair, registers.labels[b], live.pair.pc)
    {
        return Change::OpenGate(gate.entry, gate.pair);
    }
    Change::Pass
}

// Op 21.
pub fn return_gate(live: Live) -> Change
    ensures { ((w : ℕ) (fixed : Fixed) (values labels words marks : List ℕ) → change_of result ≡ changed gate_return w (state_from fixed (control_of live) values labels words marks)) × FitsIn 4 live result }
{
    let pair = live.pair;
    let kept = live.newest.pair;
    if live.newest.is_gate()
        && Label(pair.pc)
            .join(Label(pair.timing))
            .flows_to(Label(kept.pc).meet(Label(kept.timing)))
    {
        return Change::CloseGate;
    }
    Change::Pass
}
