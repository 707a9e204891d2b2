// The arguments that a program is started with, as numbers and labels. Which word an argument is lies outside of any
// promise; what is promised is that some word says what is answered.
#![tactic(auto)]

ghost use Rattle.std.specs.Prelude.{◌≡◌, List, ℕ};
ghost use Rattle.reader.specs.Alone.{number_alone};
ghost use Rattle.arguments.specs.Written.{label_alone};

use labels::{Bits, LABEL_COUNT};
use model::format::Number;
use reader::read_alone;
use std::env::FillError;
use std::rt::Env;

// A word of more bytes than a path may have is taken for none. (A file's name and a line's have this length too, each for a
// reason of its own.)
const MOST_BYTES: usize = 4096;

// The number that argument k writes as a text does: one to ten digits without leading zeros, and nothing behind them.
#[tactic(auto, using(crate::proofs::Words::no_number))]
pub fn number_argument<E: Env>(env: &E, k: usize) -> Option<Number>
    ensures { (word : List ℕ) × (result ≡ number_alone word) }
{
    let mut word = [0u8; MOST_BYTES];
    let length = env.arg(k, &mut word).ok()?;
    read_alone(&word[..length])
}

// The label that it writes so.
pub fn label_argument<E: Env>(env: &E, k: usize) -> Option<Bits>
    ensures { (word : List ℕ) × (result ≡ label_alone word) }
{
    let value = number_argument(env, k)?.value;
    (value < LABEL_COUNT as u64).then(|| value as Bits)
}

// Whether there is an argument k, of whatever length.
pub fn has_argument<E: Env>(env: &E, k: usize) -> bool {
    let mut nothing = [0u8; 1];
    match env.arg(k, &mut nothing) {
        Ok(_) | Err(FillError::TooLong) => true,
        Err(FillError::NotPresent) => false,
    }
}
