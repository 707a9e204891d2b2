// Whether a decision sets a label, so that labels that were turned before are no longer those of the registers.
ghost use Rattle.std.specs.Prelude.{◌≡◌};
ghost use Rattle.pacing.specs.SetsLabel.{sets_label};

use parts::stages::{Change, Decision};

// Whether a decision sets a label, so that the turned ones are no longer those of the registers.
pub fn sets_label(decision: Decision) -> bool
    ensures { result ≡ sets_label decision }
{
    matches!(decision, Decision::Carry(_, Change::SetLabel(_, _)))
}
