// Loading from HEX for programs in other languages: an M text of one line with a HEX text and a label. The line of a refusal
// goes to a word that the caller lends, since a HEX text may have more lines than fit an answer beside its number.
ghost use Rattle.std.specs.Prelude.{◌≡◌};
ghost use Rattle.model.specs.Record.{lent};
ghost use Rattle.record_calls.specs.RecordCalls.{left};
ghost use Rattle.jennydusk.specs.Calls.{load_hex_call};

use hexloader::load_hex;
use labels::Bits;
use load_calls::after_loading_hex;
use record_calls::{RECORD_SPAN, SHORT_BUFFER, is_short};

// Loads an M text with a HEX text, whose words get this label: the record goes to its buffer, and the memory to words and
// labels.
#[unsafe(no_mangle)]
#[tactic(auto, unfolding(crate::specs::Calls::load_hex_call, record_calls::specs::RecordCalls::is_short))]
pub extern "C" fn jennydusk_load_hex(
    text: &[u8],
    hex: &[u8],
    label: Bits,
    words: &mut [u32],
    labels: &mut [Bits],
    record: &mut [u64],
    line: &mut u64,
) -> u64
    ensures { record { left = left result «record».new words.new labels.new; line = line.new } ≡ load_hex_call text.now hex.now label (lent words.old labels.old) «record».old line.old }
{
    if is_short(record, RECORD_SPAN) {
        return SHORT_BUFFER;
    }
    let loaded = load_hex(text, hex, label, words, labels);
    after_loading_hex(loaded, 0, record, line)
}
