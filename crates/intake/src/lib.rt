// Reading to the end: the one reader of the programs. A read that fails is told apart from the end of the input, so that
// nobody takes a part for the whole.
#![tactic(auto)]

ghost use Rattle.std.specs.Prelude.{◌<◌, IfOk, length, take};
ghost use Rattle.std.specs.Io.{ReadsAtMost};
ghost use Rattle.std.specs.Io.KnownBytes.{Consumes, IsAtEnd};

use std::io::{Read, Result};

// Reads into buf until that is full or the input ends, and gives how many bytes came. The input may come in small pieces.
// Where a read fails, no byte of what came before it counts. Which bytes the system gives lies outside of any promise; a
// reader that knows its bytes gave those that count, and all that it had where the buffer isn't full.
#[tactic(auto, using(crate::proofs::Filled::consumed))]
pub fn read_whole<R: Read>(input: &mut R, buf: &mut [u8]) -> Result<usize>
    ensures count_in_bounds { ReadsAtMost result buf.new }
    ensures bytes { IfOk result (λ n. Consumes (R.remaining input.old) (R.remaining input.new) (take n buf.new)) }
    ensures end { IfOk result (λ n. n < length buf.old → IsAtEnd (R.remaining input.new)) }
{
    // The library reads to the end into a `Vec` alone, and programs take no memory for a text.
    let mut at = 0;
    while at < buf.len() {
        let more = input.read(&mut buf[at..])?;
        if more == 0 {
            return Ok(at);
        }
        at += more;
    }
    Ok(at)
}
