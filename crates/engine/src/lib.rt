// The core of the machine: steps of a control over lent registers and memory, as far as is asked for. One step, the run and
// the run to a tick share it. The ranges that the steps rest on, and that memory is lent whole, are tested first; where
// that doesn't hold, nothing is done.
#![tactic(auto)]

mod drive;
mod turned;

ghost use Rattle.std.specs.Prelude.{◌≡◌};
ghost use Rattle.model.specs.Registers.{state_over};
ghost use Rattle.engine.specs.Advance.{performed};

use drive::drive;
use labels::Bits;
use model::{Control, Fixed, Registers};
use pacing::Pace;
use pacing::ranges::is_fitting;

// What is asked for: from which control on, and how far.
#[derive(Clone, Copy)]
pub struct Task {
    pub start: Control,
    pub pace: Pace,
}

// The steps that are asked for, with the registers and memory as they are lent.
#[tactic(auto, using(pacing::proofs::Fitting::ranges_of))]
pub fn advance(
    fixed: Fixed,
    task: Task,
    registers: &mut Registers,
    words: &mut [u32],
    marks: &[Bits],
) -> Control
    ensures { state_over fixed result registers.new words.new marks.now ≡ performed fixed task registers.old words.old marks.now }
{
    if is_fitting(fixed, task.start, words, marks) {
        drive(fixed, task, registers, words, marks)
    } else {
        task.start
    }
}
