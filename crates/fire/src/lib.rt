// Firing a text: it is loaded into lent memory, run to its end, and its listing is written into lent output. A text that
// is refused gets the line `X,number,line` instead. What follows a load is a function of its own, for images of every kind.
#![tactic(auto)]

ghost use Rattle.std.specs.Prelude.{◌≤◌, ◌≡◌, length, take};
ghost use Rattle.model.specs.Record.{lent};
ghost use Rattle.model.specs.Load.{load};
ghost use Rattle.model.specs.Program.{fire, fire_whole, fire_alone};
ghost use Rattle.writer.specs.Writing.{answer};
ghost use Rattle.header.specs.Loading.{loading_of};
ghost use Rattle.fire.specs.Fired.{fired, replied};
ghost use Rattle.fire.specs.InTurn.{refusing, in_turn};

use header::Refusal;
use labels::Bits;
pub use loader::MOST_WORDS;
use loader::load;
use machine::run;
use machine_record::Machine;
pub use printer::OUTPUT;
use printer::print;
use writer::{X, write_line};

// Fires a text and gives how many bytes of the output it has written. Output that is too short is left as it is, with 0
// bytes. The memory may hold anything: what lies below the text's size is set anew, the rest is left.
#[tactic(auto, using(crate::proofs::Laws::load_fired, model::proofs::Program::load_ready), unfolding(model::specs::Program::fire))]
pub fn fire(text: &[u8], words: &mut [u32], labels: &mut [Bits], out: &mut [u8]) -> usize
    ensures { fired result out.new words.new labels.new ≡ fire text.now (lent words.old labels.old) out.old }
{
    let loaded = load_text(text, words, labels);
    fire_loaded(loaded, words, labels, out)
}

// Loads a text, with a refusal's line as wide as those of all images.
#[tactic(auto, using(std::proofs::lemmas::Result::err_from_is_err_and))]
fn load_text(text: &[u8], words: &mut [u32], labels: &mut [Bits]) -> Result<Machine, Refusal<u64>>
    ensures { loading_of result words.new labels.new ≡ load text.now (lent words.old labels.old) }
{
    Ok(load(text, words, labels)?)
}

// Fires what a load has given: the machine is run and printed, or the line of a refusal is written. Gives how many bytes of
// the output are written.
#[tactic(auto, unfolding(crate::specs::InTurn::in_turn))]
pub fn fire_loaded(
    loaded: Result<Machine, Refusal<u64>>,
    words: &mut [u32],
    labels: &mut [Bits],
    out: &mut [u8],
) -> usize
    ensures { fired result out.new words.new labels.new ≡ in_turn (loading_of loaded words.old labels.old) out.old }
{
    match loaded {
        Ok(machine) => {
            let answer = run(machine, words, labels);
            let last = answer.machine;
            let printed = print(last, words, labels, out);
            printed.written.unwrap_or(0)
        }
        Err(refusal) => write_refusal(out, refusal.cause.number() as u64, refusal.line),
    }
}

// Writes the line of a refusal and gives how many bytes it takes, or 0 where the output is too short.
#[tactic(auto, unfolding(crate::specs::InTurn::refusing, writer::specs::Writing::writing, writer::specs::Writing::written))]
fn write_refusal(out: &mut [u8], number: u64, line: u64) -> usize
    ensures { answer result out.new ≡ refusing number line out.old }
{
    let count = write_line(out, X, &[number, line]);
    if out.len() < count { 0 } else { count }
}

// Fires a text in a memory that has room for every machine and into an output that has room for every reply, and gives
// how many bytes it has written. The memory may hold anything.
#[tactic(auto, using(texts::proofs::Buffer::whole_reply, texts::proofs::Buffer::whole_counts, model::proofs::Program::load_ready), unfolding(model::specs::Program::fire, model::specs::Program::fire_whole))]
pub fn fire_whole(
    text: &[u8],
    words: &mut [u32; MOST_WORDS],
    labels: &mut [Bits; MOST_WORDS],
    out: &mut [u8; OUTPUT],
) -> usize
    ensures reply { fired result out.new words.new labels.new ≡ fire_whole text.now (lent words.old labels.old) out.old }
    ensures counted { (result ≤ length out.new) × (result ≡ length (take result out.new)) }
{
    fire(text, words, labels, out)
}

// The same in a memory of its own, all 0: what the program `firing` prints for a text.
#[tactic(auto, unfolding(model::specs::Program::program_memory, model::specs::Program::fire_alone))]
pub fn fire_alone(text: &[u8], out: &mut [u8; OUTPUT]) -> usize
    ensures reply { replied result out.new ≡ fire_alone text.now out.old }
    ensures counted { (result ≤ length out.new) × (result ≡ length (take result out.new)) }
{
    let mut words = [0u32; MOST_WORDS];
    let mut labels: [Bits; MOST_WORDS] = [0; MOST_WORDS];
    fire_whole(text, &mut words, &mut labels, out)
}
