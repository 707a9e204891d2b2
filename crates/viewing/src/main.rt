// The program `viewing`: reads a text from standard input, runs it to a tick, and prints what a label then sees: its listing,
// or `X,number,line`, or `X,10,limit` where the tick is above the limit. Its two arguments name the label and the tick.
// Arguments, read, one call, write: what is printed for a text is promised by that call.
#![tactic(auto)]

use arguments::{has_argument, label_argument, number_argument};
use labels::Bits;
use replies::{Failure, SPACE, complain, read_input, write_output};
use std::io::writer;
use std::rt::Env;
use view::{OUTPUT, view_alone};

// The label and the tick that the two arguments ask for.
fn read_arguments(env: &impl Env) -> Option<(Bits, u64)> {
    if !has_argument(env, 2) || has_argument(env, 3) {
        return None;
    }
    Some((label_argument(env, 1)?, number_argument(env, 2)?.value))
}

// Views the text on standard input and writes what comes of it.
fn view_input(rt: &HostRuntime, label: Bits, tick: u64) -> Result<(), Failure> {
    let mut text = [0u8; SPACE];
    let length = read_input(&mut rt.stdin(), &mut text)?;
    let mut output = [0u8; OUTPUT];
    let count = view_alone(label, tick, &text[..length], &mut output);
    // By `Print`, which gives up where a write is interrupted again and again.
    write_output(&mut writer(rt), &output[..count])
}

fn main(rt: HostRuntime) {
    let Some((label, tick)) = read_arguments(&rt) else {
        complain(
            &rt,
            "viewing",
            "the arguments are a label, 0 to 255, and a tick",
        );
        return;
    };
    if let Err(failure) = view_input(&rt, label, tick) {
        complain(&rt, "viewing", failure);
    }
}
