// The program `certifying`: reads a text from standard input and prints up to which tick nothing that is hidden can show at
// a label, which its one argument names: `V,cause,tick,place`, or `X,number,line` for a text that is refused. Arguments,
// read, one call, write: what is printed for a text is promised by that call.
#![tactic(auto)]

use arguments::{has_argument, label_argument};
use certify::{OUTPUT, certify_alone};
use labels::Bits;
use replies::{Failure, SPACE, complain, read_input, write_output};
use std::io::writer;
use std::rt::Env;

// The label that the one argument names.
fn read_label(env: &impl Env) -> Option<Bits> {
    if has_argument(env, 2) {
        return None;
    }
    label_argument(env, 1)
}

// Certifies the text on standard input and writes what comes of it.
fn certify_input(rt: &HostRuntime, label: Bits) -> Result<(), Failure> {
    let mut text = [0u8; SPACE];
    let length = read_input(&mut rt.stdin(), &mut text)?;
    let mut output = [0u8; OUTPUT];
    let count = certify_alone(label, &text[..length], &mut output);
    // By `Print`, which gives up where a write is interrupted again and again.
    write_output(&mut writer(rt), &output[..count])
}

fn main(rt: HostRuntime) {
    let Some(label) = read_label(&rt) else {
        complain(&rt, "certifying", "the argument is one label, 0 to 255");
        return;
    };
    if let Err(failure) = certify_input(&rt, label) {
        complain(&rt, "certifying", failure);
    }
}
