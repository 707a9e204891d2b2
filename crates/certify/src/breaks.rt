// States that break a certificate: one that is outside, in no upcall, while a gate leads within; and one whose pc label is
// within and whose timing label is outside.
ghost use Rattle.std.specs.Prelude.{◌≤◌, ◌≡◌};
ghost use Rattle.model.specs.Numbers.{most_gates};
ghost use Rattle.model.specs.Seen.{within};
ghost use Rattle.certificates.specs.Certificate.{leads_within};
ghost use Rattle.certify.specs.Certified.{certificate_of};
ghost use Rattle.certify.specs.Inner.Breaks.{break_with};

use crate::{Break, BreakCause};
use labels::{Bits, Label};
use model::{Control, Fixed};
use parts::calls::{OpenCall, newest};

// Whether the label `other` flows to `label`.
#[tactic(auto, unfolding(model::specs::Seen::within))]
pub(in crate) fn is_within(label: Bits, other: Bits) -> bool
    ensures { result ≡ within label other }
{
    Label(other).flows_to(Label(label))
}

// Whether a gate leads within.
pub(in crate) fn leads_within(label: Bits, fixed: Fixed) -> bool
    requires { fixed.count ≤ most_gates }
    ensures { result ≡ leads_within label fixed fixed.count }
{
    let gates = fixed.gates;
    for gate in &gates[..fixed.count as usize] {
        let pair = gate.pair;
        if is_within(label, pair.pc) {
            return true;
        }
    }
    false
}

// The break that a state is, or none. `opened` says whether a gate leads within.
#[tactic(auto, unfolding(crate::specs::Inner::Breaks::break_with, model::specs::Record::in_upcall, model::specs::Record::newest))]
pub(in crate) fn break_of(label: Bits, opened: bool, control: Control) -> Option<Break>
    ensures { certificate_of result ≡ break_with label opened control }
{
    let pair = control.pair;
    let tick = control.clock;
    if is_within(label, pair.pc) {
        if is_within(label, pair.timing) {
            return None;
        }
        let place = control.pc;
        let cause = BreakCause::Timing;
        return Some(Break { cause, tick, place });
    }
    let first = control.first;
    let second = control.second;
    let call = newest(first, second);
    if call.is_upcall() {
        return None;
    }
    if opened {
        return Some(Break {
            cause: BreakCause::Gate,
            tick,
            place: 0,
        });
    }
    None
}
