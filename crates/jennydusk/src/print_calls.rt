// Listings for programs in other languages: of the record in a buffer and its memory, for one label or for all.
ghost use Rattle.std.specs.Prelude.{◌≡◌};
ghost use Rattle.model.specs.Record.{lent};
ghost use Rattle.jennydusk.specs.Calls.{shown, print_for_call, print_call};

use causes::DONE;
use labels::{Bits, Label};
use load_calls::counted;
use printer::print_for;
use record_calls::{RECORD_SPAN, SHORT_BUFFER, is_short, no_record};

// Writes the listing of the record and its memory into `out`, as the label sees them.
#[unsafe(no_mangle)]
#[tactic(auto, using(crate::proofs::Length::bytes_most), unfolding(crate::specs::Calls::print_for_call, record_calls::specs::RecordCalls::is_short, decoder::specs::Reading::read))]
pub extern "C" fn jennydusk_print_for(
    record: &[u64],
    words: &[u32],
    labels: &[Bits],
    label: Bits,
    out: &mut [u8],
) -> u64
    ensures { shown result out.new ≡ print_for_call label «record».now (lent words.now labels.now) out.old }
{
    if is_short(record, RECORD_SPAN) {
        return SHORT_BUFFER;
    }
    let Some(machine) = decoder::read(record) else {
        return no_record();
    };
    let printed = print_for(machine, label, words, labels, out);
    match printed.written {
        Ok(count) => counted(DONE, count as u32),
        Err(cause) => counted(cause.number(), 0),
    }
}

// Writes the whole listing: that of the highest label, which sees everything.
#[unsafe(no_mangle)]
#[tactic(auto, using(labels::proofs::Constants::highest_number), unfolding(crate::specs::Calls::print_call))]
pub extern "C" fn jennydusk_print(
    record: &[u64],
    words: &[u32],
    labels: &[Bits],
    out: &mut [u8],
) -> u64
    ensures { shown result out.new ≡ print_call «record».now (lent words.now labels.now) out.old }
{
    jennydusk_print_for(record, words, labels, Label::HIGHEST.0, out)
}
