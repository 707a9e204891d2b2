// Attempts to release a register: what the next step tries, whether or not the register's own label allows it.
ghost use Rattle.std.specs.Prelude.{◌≤◌, ◌≡◌, length};
ghost use Rattle.model.specs.Numbers.{most_ticks};
ghost use Rattle.certify.specs.Inner.Release.{relabelling_at, tries_with, releases_with, has_time};

use crate::breaks::is_within;
use labels::{Bits, LABEL_COUNT, Label};
use model::{Control, Registers};
use parts::calls::{deadline_of, newest};
use parts::word::{a_of, b_of, index, op_of};

// The number of the op that relabels, and its ticks.
const RELABEL: u32 = 16;

const TICKS: u32 = 2;

// The word that is fetched at the pc under the pc label p, if it relabels.
#[tactic(auto, using(crate::proofs::Attempt::relabels_with), unfolding(crate::specs::Inner::Release::relabelling_at))]
pub(in crate) fn relabelling(
    size: u32,
    pc: u32,
    p: Bits,
    words: &[u32],
    marks: &[Bits],
) -> Option<u32>
    requires { (size ≤ length words.now) × (size ≤ length marks.now) }
    ensures { result ≡ relabelling_at size pc p words.now marks.now }
{
    if pc < size {
        let at = index(pc);
        if Label(marks[at]).flows_to(Label(p)) {
            let w = words[at];
            if op_of(w) == RELABEL {
                return Some(w);
            }
        }
    }
    None
}

// Whether giving the label `value` to a register labelled `old`, where the value is labelled `source`, releases it under
// the pc label p.
#[tactic(auto, unfolding(crate::specs::Inner::Release::tries_with, model::specs::Ops::is_label))]
fn tries_release(label: Bits, p: Bits, old: Bits, source: Bits, value: u32) -> bool
    ensures { result ≡ tries_with label p old source value }
{
    if value < LABEL_COUNT {
        let new = value as Bits;
        return is_within(label, p)
            & !is_within(label, old)
            & is_within(label, new)
            & Label(source).flows_to(Label(p))
            & Label(p).flows_to(Label(new))
            & Label(new).flows_to(Label(p).reflection());
    }
    false
}

// Whether what was fetched tries so.
pub(in crate) fn releases(label: Bits, p: Bits, found: Option<u32>, registers: &Registers) -> bool
    ensures { result ≡ releases_with label p found registers.now.values registers.now.labels }
{
    let Some(w) = found else {
        return false;
    };
    let a = a_of(w);
    let b = b_of(w);
    let labels = &registers.labels;
    tries_release(label, p, labels[a], labels[b], registers.values[b])
}

// Whether a relabelling is carried out, or passes by: the record runs, and neither end tick nor limit bars the op.
#[tactic(auto, unfolding(crate::specs::Inner::Release::has_time, model::specs::Record::newest))]
pub(in crate) fn has_time(limit: u32, control: Control) -> bool
    requires { control.clock ≤ most_ticks }
    ensures { result ≡ has_time limit control }
{
    let first = control.first;
    let second = control.second;
    let call = newest(first, second);
    let deadline = deadline_of(limit, call);
    (control.end == 0) & (control.clock + TICKS <= deadline)
}
