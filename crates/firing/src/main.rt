// The program `firing`: reads a text from standard input, runs it to its end and prints the listing, or `X,number,line`.
// Read, one call, write: what is printed for a text is promised by that call.
#![tactic(auto)]

use fire::{OUTPUT, fire_alone};
use replies::{Failure, SPACE, complain, read_input, write_output};
use std::io::writer;

// Fires the text on standard input and writes what comes of it.
fn fire_input(rt: &HostRuntime) -> Result<(), Failure> {
    let mut text = [0u8; SPACE];
    let length = read_input(&mut rt.stdin(), &mut text)?;
    let mut output = [0u8; OUTPUT];
    let count = fire_alone(&text[..length], &mut output);
    // By `Print`, which gives up where a write is interrupted again and again.
    write_output(&mut writer(rt), &output[..count])
}

fn main(rt: HostRuntime) {
    if let Err(failure) = fire_input(&rt) {
        complain(&rt, "firing", failure);
    }
}
