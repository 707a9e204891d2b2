// The labels of the registers turned, as the hot loop reads them.
ghost use Rattle.std.specs.Prelude.{◌<◌, ◌≡◌};
ghost use Rattle.labels.specs.Label.{label_count, lacking};
ghost use Rattle.turns.specs.Turned.{Mirrors};

use labels::{Bits, Label};
use model::numbers::REGISTER_COUNT;
use turns::TURNED_COUNT;

// What stands in the turned labels before they are filled.
const UNTURNED: Bits = 0;

// What a label lacks. Every byte is a label.
fn lacked_by(label: Bits) -> Bits
    ensures { (result ≡ lacking label) × (label < label_count) }
{
    Label(label).lacking()
}

// The labels of the registers turned, as the hot loop reads them.
pub(in crate) fn turn(labels: &[Bits; REGISTER_COUNT]) -> [Bits; TURNED_COUNT]
    ensures { Mirrors labels.now result }
{
    let mut turned = [UNTURNED; TURNED_COUNT];
    for (i, label) in labels.iter().enumerate() {
        turned[i] = Label(*label).restrictions();
        turned[i + REGISTER_COUNT] = lacked_by(*label);
    }
    turned
}
