// Viewing a text: it is loaded into lent memory, run to a tick, and what a viewer's label then sees is listed into lent
// output.
#![tactic(auto)]

ghost use Rattle.std.specs.Prelude.{◌≤◌, ◌≡◌, length, take};
ghost use Rattle.model.specs.Record.{lent};
ghost use Rattle.model.specs.View.{view, view_alone};
ghost use Rattle.view.specs.Viewed.{viewed_of};

use causes::Cause;
use labels::Bits;
pub use loader::MOST_WORDS;
use loader::load;
use machine::run_to;
pub use printer::OUTPUT;
use printer::print_for;
use writer::{X, write_line};

// A view that is refused: why, and the line of a text that was refused, or the limit where the tick is above it, or 0. A
// type of its own beside a load's refusal, since its number isn't always a line.
#[derive(Clone, Copy)]
pub struct Refused {
    pub cause: Cause,
    pub value: u32,
}

// The view of a text from a label at a tick. The memory may hold anything: what lies below the text's size is set anew, and
// is left as it is at the tick, also where the output is too short.
#[tactic(auto, using(crate::proofs::Laws::refused_view, crate::proofs::Laws::above_view, crate::proofs::Laws::listed_view))]
pub fn view(
    label: Bits,
    tick: u64,
    text: &[u8],
    words: &mut [u32],
    labels: &mut [Bits],
    out: &mut [u8],
) -> Result<usize, Refused>
    ensures { viewed_of result out.new words.new labels.new ≡ view label tick text.now (lent words.old labels.old) out.old }
{
    let machine = match load(text, words, labels) {
        Ok(machine) => machine,
        Err(refusal) => {
            return Err(Refused {
                cause: refusal.cause,
                value: refusal.line,
            });
        }
    };
    let limit = machine.fixed.limit;
    if (limit as u64) < tick {
        return Err(Refused {
            cause: Cause::TickAboveLimit,
            value: limit,
        });
    }
    let answer = run_to(machine, tick, words, labels);
    let there = answer.machine;
    let printed = print_for(there, label, words, labels, out);
    match printed.written {
        Ok(count) => Ok(count),
        Err(cause) => Err(Refused { cause, value: 0 }),
    }
}

// The same in a memory of its own, all 0, with the line written of a view that is refused: what the program `viewing`
// prints for a text. Gives how many bytes it has.
pub fn view_alone(label: Bits, tick: u64, text: &[u8], out: &mut [u8; OUTPUT]) -> usize
    ensures reply { record { bytes = result; output = out.new } ≡ view_alone label tick text.now out.old }
    ensures counted { (result ≤ length out.new) × (result ≡ length (take result out.new)) }
{
    let mut words = [0u32; MOST_WORDS];
    let mut labels: [Bits; MOST_WORDS] = [0; MOST_WORDS];
    match view(label, tick, text, &mut words, &mut labels, out) {
        Ok(count) => count,
        Err(refused) => {
            let number = refused.cause.number() as u64;
            let value = refused.value as u64;
            write_line(out, X, &[number, value])
        }
    }
}
