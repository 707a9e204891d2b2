// The machine's calls: one step, the run and the run to a tick. A record that is not well-formed, or memory that is lent too
// short, is refused; then the record comes back and memory is left.
#![tactic(auto)]

ghost use Rattle.std.specs.Prelude.{◌≡◌, true, Err};
ghost use Rattle.model.specs.Record.{lent};
ghost use Rattle.model.specs.WellFormed.{well_formed, lent_whole};
ghost use Rattle.model.specs.Answer.{answer_of, step_answer, run_answer, run_to_answer};
ghost use Rattle.machine_record.specs.Struct.{record_of};
ghost use Rattle.machine.specs.Answered.{answered};
ghost use Rattle.machine.specs.Inner.Carried.{pace_of, Carried};

use causes::Cause;
use engine::{Task, advance};
use labels::Bits;
use machine_record::{Machine, is_lent_whole};
use model::Request;
use pacing::Pace;

// What a call answers: how it ended, and the record, which comes back beside a refusal too.
#[derive(Clone, Copy)]
pub struct Answer {
    pub outcome: Result<(), Cause>,
    pub machine: Machine,
}

// How far the steps of a request go: no step of a run finishes past the limit.
fn pace_of(request: Request, limit: u32) -> Pace
    ensures { result ≡ pace_of request limit }
{
    match request {
        Request::Step => Pace::Once,
        Request::Run => Pace::Onward(limit as u64),
        Request::RunTo(tick) => Pace::Onward(tick),
    }
}

// What is asked for, of a well-formed record with memory that is lent whole.
fn carried(machine: Machine, request: Request, words: &mut [u32], marks: &mut [Bits]) -> Machine
    requires { (well_formed (record_of machine) ≡ true) × (lent_whole machine.fixed.size (lent words.old marks.old) ≡ true) }
    ensures { Carried request machine words.old marks.old result words.new marks.new }
{
    let fixed = machine.fixed;
    let start = machine.control;
    let mut registers = machine.registers;
    let pace = pace_of(request, fixed.limit);
    let task = Task { start, pace };
    let control = advance(fixed, task, &mut registers, words, marks);
    Machine {
        fixed,
        control,
        registers,
    }
}

// A refusal gives the record back.
fn refused(machine: Machine, cause: Cause) -> Answer
    ensures { result ≡ record { outcome = Err cause; machine = machine } }
{
    let outcome = Err(cause);
    Answer { outcome, machine }
}

// The answer of one step, of a run or of a run to a tick.
#[tactic(auto, unfolding(model::specs::Answer::answer))]
pub fn answer_of(
    machine: Machine,
    request: Request,
    words: &mut [u32],
    marks: &mut [Bits],
) -> Answer
    ensures { answered result words.new marks.new ≡ answer_of request (record_of machine) (lent words.old marks.old) }
{
    if machine.is_well_formed() {
        let fixed = machine.fixed;
        if is_lent_whole(fixed.size, words, marks) {
            let outcome = Ok(());
            let machine = carried(machine, request, words, marks);
            return Answer { outcome, machine };
        }
        return refused(machine, Cause::ShortMemory);
    }
    refused(machine, Cause::IllFormed)
}

// One step.
pub fn step(machine: Machine, words: &mut [u32], marks: &mut [Bits]) -> Answer
    ensures { answered result words.new marks.new ≡ step_answer (record_of machine) (lent words.old marks.old) }
{
    answer_of(machine, Request::Step, words, marks)
}

// Steps until the end isn't 0.
pub fn run(machine: Machine, words: &mut [u32], marks: &mut [Bits]) -> Answer
    ensures { answered result words.new marks.new ≡ run_answer (record_of machine) (lent words.old marks.old) }
{
    answer_of(machine, Request::Run, words, marks)
}

// The steps that finish at or before the tick.
pub fn run_to(machine: Machine, tick: u64, words: &mut [u32], marks: &mut [Bits]) -> Answer
    ensures { answered result words.new marks.new ≡ run_to_answer tick (record_of machine) (lent words.old marks.old) }
{
    answer_of(machine, Request::RunTo(tick), words, marks)
}
