// Firing an image from HEX: an M text with a HEX text and a label is loaded into lent memory, run to its end, and its listing
// is written into lent output. An image that is refused gets the line `X,number,line` instead.
#![tactic(auto)]

ghost use Rattle.std.specs.Prelude.{◌≤◌, ◌≡◌, length, take};
ghost use Rattle.model.specs.Record.{lent};
ghost use Rattle.model.specs.Program.{fire_hex, fire_hex_alone};
ghost use Rattle.fire.specs.Fired.{fired, replied};

use fire::{MOST_WORDS, OUTPUT, fire_loaded};
use hexloader::load_hex;
use labels::Bits;

// Fires an image and gives how many bytes of the output it has written. Output that is too short is left as it is, with 0
// bytes. The memory may hold anything: what lies below the image's size is set anew, the rest is left.
#[tactic(auto, using(fire::proofs::Laws::load_fired, model::proofs::Program::hex_ready), unfolding(model::specs::Program::fire_hex))]
pub fn fire_hex(
    text: &[u8],
    hex: &[u8],
    label: Bits,
    words: &mut [u32],
    labels: &mut [Bits],
    out: &mut [u8],
) -> usize
    ensures { fired result out.new words.new labels.new ≡ fire_hex text.now hex.now label (lent words.old labels.old) out.old }
{
    let loaded = load_hex(text, hex, label, words, labels);
    fire_loaded(loaded, words, labels, out)
}

// The same in a memory of its own, all 0, and into an output that has room for every reply: what the program `hexfiring`
// prints for an image.
#[tactic(auto, using(texts::proofs::Buffer::whole_reply, texts::proofs::Buffer::whole_counts, model::proofs::Program::hex_ready), unfolding(model::specs::Program::program_memory, model::specs::Program::fire_hex, model::specs::Program::fire_hex_alone))]
pub fn fire_hex_alone(text: &[u8], hex: &[u8], label: Bits, out: &mut [u8; OUTPUT]) -> usize
    ensures reply { replied result out.new ≡ fire_hex_alone text.now hex.now label out.old }
    ensures counted { (result ≤ length out.new) × (result ≡ length (take result out.new)) }
{
    let mut words = [0u32; MOST_WORDS];
    let mut labels: [Bits; MOST_WORDS] = [0; MOST_WORDS];
    fire_hex(text, hex, label, &mut words, &mut labels, out)
}
