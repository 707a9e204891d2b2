// What the programs share: they read to the end, call once, and write what that gave; and what they say where it goes wrong. The
// call stands in each of ours: a function that takes it, as `reply_to` does for a program from elsewhere, has to ask of its
// caller that it may be called.
#![tactic(auto)]

ghost use Rattle.std.specs.Prelude.{◌<◌, length, take, IfOk, OnOk};
ghost use Rattle.std.specs.Io.{ReadsAtMost};
ghost use Rattle.std.specs.Io.KnownBytes.{Appends, Consumes, IsAtEnd};
ghost use Rattle.replies.specs.Reply.{IsCountOf, IsRead, Gives};

use intake::read_whole;
use std::convert::AsSlice;
use std::fmt;
use std::fmt::{Display, Formatter};
use std::io::{Eprint, Read, Write};

// More bytes than a text may have, so that a longer one is noticed.
pub const SPACE: usize = 65536;

// Why there was no reply.
#[derive(Clone, Copy)]
pub enum Failure {
    Unread,
    Unwritten,
}

impl Display for Failure {
    fn fmt<W: fmt::Write>(&self, f: &mut Formatter<W>) -> fmt::Result {
        f.write_str(match self {
            Failure::Unread => "standard input can't be read",
            Failure::Unwritten => "standard output can't be written",
        })
    }
}

// Says on standard error what went wrong in a program.
pub fn complain<D: Display + Drop>(rt: &impl Eprint, program: &str, what: D) {
    let _ = eprintln!(rt; "{program}: {what}");
}

// Reads an input to its end, or until a buffer is full, and gives how many bytes came.
pub fn read_input<I: Read>(input: &mut I, buf: &mut [u8]) -> Result<usize, Failure>
    ensures count_in_bounds { ReadsAtMost result buf.new }
    ensures bytes { IfOk result (λ n. Consumes (I.remaining input.old) (I.remaining input.new) (take n buf.new)) }
    ensures end { IfOk result (λ n. n < length buf.old → IsAtEnd (I.remaining input.new)) }
{
    read_whole(input, buf).map_err(|_| Failure::Unread)
}

// Writes bytes to an output.
pub fn write_output<O: Write>(output: &mut O, bytes: &[u8]) -> Result<(), Failure>
    ensures { OnOk result (Appends (O.contents output.old) (O.contents output.new) bytes.now) }
{
    output.write_all(bytes).map_err(|_| Failure::Unwritten)
}

// Reads an input whole and writes what a call makes of it. What is asked concerns the call alone: that it may be called, and
// that what it counts lies within its space.
pub fn reply_to<I: Read, O: Write, B: AsSlice<u8>, F: FnOnce(&[u8], &mut B) -> usize>(
    input: &mut I,
    output: &mut O,
    space: &mut B,
    call: F,
) -> Result<(), Failure>
    requires callable { F.IsAlwaysCallable call }
    requires counted { (t : _) (a : _) (n : _) (b : _) → F.post call t a n b → IsCountOf n (B.items b.now) }
    ensures { OnOk result ((text : _) × (n : _) × IsRead (I.remaining input.old) (I.remaining input.new) SPACE text
        × Gives F.FnOnce call text space.old n space.new
        × Appends (O.contents output.old) (O.contents output.new) (take n (B.items space.new))) }
{
    let mut text = [0u8; SPACE];
    let length = read_input(input, &mut text)?;
    let count = call(&text[..length], space);
    write_output(output, &space.as_slice()[..count])
}

#[cfg(test)]
mod tests;
