// What the calls for programs in other languages share: whether a lent buffer is long enough, a record in a buffer, and one
// step, a run or a run to a tick of it. Nothing is kept between calls.
#![tactic(auto)]

ghost use Rattle.std.specs.Prelude.{◌≡◌};
ghost use Rattle.model.specs.Record.{lent};
ghost use Rattle.model.specs.Answer.{answer_of};
ghost use Rattle.causes.specs.Causes.{outcome_of};
ghost use Rattle.machine_record.specs.Struct.{record_of};
ghost use Rattle.record_calls.specs.RecordCalls.{is_short, no_record, left, kept_record, record_call};

use causes::{Cause, number_of};
use labels::Bits;
use machine::answer_of;
use machine_record::Machine;
use model::Request;

// How many words a record takes.
pub const RECORD_SPAN: usize = encoder::SPAN;

// The answer where a buffer is shorter than the record or the certificate that it is lent for: a number, as programs in other
// languages get every answer.
pub const SHORT_BUFFER: u64 = 255;

// Whether a buffer is shorter than so many words. Each call tries this before everything else.
#[tactic(auto, unfolding(crate::specs::RecordCalls::is_short))]
pub fn is_short(buffer: &[u64], least: usize) -> bool
    ensures { result ≡ is_short least buffer.now }
{
    buffer.len() < least
}

// The answer where the buffer holds no record: that of a record that is not well-formed.
pub fn no_record() -> u64
    ensures { result ≡ no_record }
{
    Cause::IllFormed.number() as u64
}

// Writes the record, unless the call that ended so was refused.
pub fn keep(ended: Result<(), Cause>, machine: Machine, record: &mut [u64])
    ensures { «record».new ≡ kept_record (outcome_of ended) (record_of machine) «record».old }
{
    if ended.is_ok() {
        encoder::write(machine, record);
    }
}

// One step of the record in the buffer, its run or its run to a tick: what three calls of the library share.
#[tactic(auto, unfolding(crate::specs::RecordCalls::record_call, decoder::specs::Reading::read))]
pub fn advanced(request: Request, record: &mut [u64], words: &mut [u32], labels: &mut [Bits]) -> u64
    ensures { left result «record».new words.new labels.new ≡ record_call (answer_of request) «record».old (lent words.old labels.old) }
{
    if is_short(record, RECORD_SPAN) {
        return SHORT_BUFFER;
    }
    let Some(machine) = decoder::read(record) else {
        return no_record();
    };
    let answer = answer_of(machine, request, words, labels);
    keep(answer.outcome, answer.machine, record);
    number_of(answer.outcome) as u64
}
