// A view for programs in other languages: a text is loaded, run to a tick and listed for a viewer's label.
ghost use Rattle.std.specs.Prelude.{◌≡◌};
ghost use Rattle.model.specs.Record.{lent};
ghost use Rattle.jennydusk.specs.Calls.{looked, view_call};

use causes::DONE;
use labels::Bits;
use load_calls::counted;
use view::view;

// The view of a text from a label at a tick: words and labels hold what the run to the tick leaves.
#[unsafe(no_mangle)]
#[tactic(auto, using(crate::proofs::Length::view_most), unfolding(crate::specs::Calls::view_call))]
pub extern "C" fn jennydusk_view(
    text: &[u8],
    label: Bits,
    tick: u64,
    words: &mut [u32],
    labels: &mut [Bits],
    out: &mut [u8],
) -> u64
    ensures { looked result out.new words.new labels.new ≡ view_call text.now label tick (lent words.old labels.old) out.old }
{
    match view(label, tick, text, words, labels, out) {
        Ok(count) => counted(DONE, count as u32),
        Err(refused) => counted(refused.cause.number(), refused.value),
    }
}
