// The machine for programs in other languages: load, step and run over buffers that the caller lends. A record stands in
// a buffer of 64-bit words, as the crates encoder and decoder have it. Nothing is kept between calls. The module
// load_hex_call has the load from HEX, print_calls listings, view_call views, certify_call certificates, label_calls the
// label rules.
#![tactic(auto)]

ghost use Rattle.std.specs.Prelude.{◌≡◌};
ghost use Rattle.model.specs.Record.{lent};
ghost use Rattle.record_calls.specs.RecordCalls.{left};
ghost use Rattle.jennydusk.specs.Calls.{load_call, step_call, run_call, run_to_call};

use labels::Bits;
use load_calls::after_loading;
use loader::load;
use model::Request;
use record_calls::{RECORD_SPAN, SHORT_BUFFER, advanced, is_short};

mod certify_call;
mod label_calls;
mod load_hex_call;
mod print_calls;
mod view_call;

// Loads a text: the record goes to its buffer, and the memory to words and labels.
#[unsafe(no_mangle)]
#[tactic(auto, unfolding(crate::specs::Calls::load_call, record_calls::specs::RecordCalls::is_short))]
pub extern "C" fn jennydusk_load(
    text: &[u8],
    words: &mut [u32],
    labels: &mut [Bits],
    record: &mut [u64],
) -> u64
    ensures { left result «record».new words.new labels.new ≡ load_call text.now (lent words.old labels.old) «record».old }
{
    if is_short(record, RECORD_SPAN) {
        return SHORT_BUFFER;
    }
    let loaded = load(text, words, labels);
    after_loading(loaded, 0, record)
}

// One step of the record.
#[unsafe(no_mangle)]
#[tactic(auto, unfolding(crate::specs::Calls::step_call))]
pub extern "C" fn jennydusk_step(record: &mut [u64], words: &mut [u32], labels: &mut [Bits]) -> u64
    ensures { left result «record».new words.new labels.new ≡ step_call «record».old (lent words.old labels.old) }
{
    advanced(Request::Step, record, words, labels)
}

// Steps of the record until its end isn't 0.
#[unsafe(no_mangle)]
#[tactic(auto, unfolding(crate::specs::Calls::run_call))]
pub extern "C" fn jennydusk_run(record: &mut [u64], words: &mut [u32], labels: &mut [Bits]) -> u64
    ensures { left result «record».new words.new labels.new ≡ run_call «record».old (lent words.old labels.old) }
{
    advanced(Request::Run, record, words, labels)
}

// Steps of the record that finish at or before the tick.
#[unsafe(no_mangle)]
#[tactic(auto, unfolding(crate::specs::Calls::run_to_call))]
pub extern "C" fn jennydusk_run_to(
    record: &mut [u64],
    words: &mut [u32],
    labels: &mut [Bits],
    tick: u64,
) -> u64
    ensures { left result «record».new words.new labels.new ≡ run_to_call tick «record».old (lent words.old labels.old) }
{
    advanced(Request::RunTo(tick), record, words, labels)
}
