// A machine record read from a lent buffer of 64-bit words, where the crate encoder writes it. specs/Held.antt says which
// buffers hold one.
#![tactic(auto)]

ghost use Rattle.std.specs.Prelude.{◌≡◌};
ghost use Rattle.decoder.specs.Held.{begins};
ghost use Rattle.decoder.specs.Reading.{read_of, read as Reading·read};

use decode::machine_in;
use machine_record::Machine;

mod decode;

// Whether the buffer begins with the words.
#[tactic(auto, using(crate::proofs::Lists::begins_is))]
fn begins(words: &[u64], buffer: &[u64]) -> bool
    ensures { result ≡ begins words.now buffer.now }
{
    buffer.starts_with(words)
}

// The record that the buffer's first words hold, if they are just the words of a record.
pub fn read(buffer: &[u64]) -> Option<Machine>
    ensures { read_of result ≡ Reading·read buffer.now }
{
    let machine = machine_in(buffer);
    begins(&encoder::words_of(machine), buffer).then_some(machine)
}
