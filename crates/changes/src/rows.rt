// Ops 15 to 17: what they change, if their checks pass.
#![tactic(auto, unfolding(model::specs::Ops::table, model::specs::Ops::is_label, model::specs::Ops::writable, model::specs::Record::value_at, model::specs::Record::label_at))]

ghost use Rattle.std.specs.Prelude.{ℕ, ◌<◌, ◌≡◌, ◌&&◌, List};
ghost use Rattle.std.specs.Bool.{then_some};
ghost use Rattle.model.specs.declared.Fixed.{Fixed};
ghost use Rattle.model.specs.Registers.{state_over};
ghost use Rattle.model.specs.Word.{set_label, set_pair};
ghost use Rattle.model.specs.Ops.{is_label, allows, new_pair, new_pair_allowed};
ghost use Rattle.parts.specs.Live.{control_of};
ghost use Rattle.parts.specs.Stages.{change_of};
ghost use Rattle.changes.specs.Changes.{rule_of, changed, FitsIn};

use labels::{Bits, Label};
use model::numbers::ZERO_REGISTER;
use model::{Pair, Registers};
use parts::live::Live;
use parts::stages::Change;
use parts::word::{a_of, b_of, c_of};

// The rules of ops 15 and 16. An enum, which `rule_of` ties to the model's rule: of a closure that would have to be said by a
// law at each call.
#[derive(Clone, Copy)]
pub enum Rule {
    Raise,
    Relabel,
}

// The label that a value is, if it is one.
fn label_of(x: u32) -> Option<Bits>
    ensures { result ≡ then_some (is_label x) x }
{
    Bits::try_from(x).ok()
}

// The label that a value is, if a register of this label may get it by the rule.
fn new_label(rule: Rule, x: u32, la: Bits, p: Bits) -> Option<Bits>
    ensures { result ≡ then_some (is_label x && allows (rule_of rule) p la x) x }
{
    let to = label_of(x)?;
    let allowed = match rule {
        Rule::Raise => Label(la).may_raise(Label(to), Label(p)),
        Rule::Relabel => Label(la).may_relabel(Label(to), Label(p)),
    };
    allowed.then_some(to)
}

// Ops 15 and 16.
pub fn set_label(rule: Rule, w: u32, live: Live, registers: &Registers) -> Change
    ensures { ((fixed : Fixed) (words marks : List ℕ) → change_of result ≡ changed (set_label (rule_of rule)) w (state_over fixed (control_of live) registers.now words marks)) × FitsIn 2 live result }
{
    let p = live.pair.pc;
    let a = a_of(w);
    let b = b_of(w);
    if ZERO_REGISTER < a
        && Label(registers.labels[b]).flows_to(Label(p))
        && let Some(to) = new_label(rule, registers.values[b], registers.labels[a], p)
    {
        return Change::SetLabel(a, to);
    }
    Change::Pass
}

// The pair in registers b and c, if their values are labels that form a valid one and may be read.
#[tactic(auto, unfolding(model::specs::Ops::new_pair_allowed, model::specs::Record::value_at, model::specs::Record::label_at))]
pub(in crate) fn new_pair(w: u32, live: Live, registers: &Registers) -> Option<Pair>
    ensures { (fixed : Fixed) (words marks : List ℕ) → let s = state_over fixed (control_of live) registers.now words marks in result ≡ then_some (new_pair_allowed s w) (new_pair s w) }
{
    let p = Label(live.pair.pc);
    let b = b_of(w);
    let c = c_of(w);
    let pc = label_of(registers.values[b])?;
    let timing = label_of(registers.values[c])?;
    let allowed = Label(pc).is_valid_pair(Label(timing))
        & Label(registers.labels[b]).flows_to(p)
        & Label(registers.labels[c]).flows_to(p);
    allowed.then_some(Pair { pc, timing })
}

// Op 17.
pub fn set_pair(w: u32, live: Live, registers: &Registers) -> Change
    ensures { ((fixed : Fixed) (words marks : List ℕ) → change_of result ≡ changed set_pair w (state_over fixed (control_of live) registers.now words marks)) × FitsIn 2 live result }
{
    let own = live.pair;
    if let Some(to) = new_pair(w, live, registers)
        && Label(own.pc).flows_to(Label(to.pc))
        && Label(own.timing).flows_to(Label(to.timing))
    {
        return Change::Enter(to);
    }
    Change::Pass
}
