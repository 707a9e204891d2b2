// The program `hexfiring`: reads the M text of a file and HEX from standard input, fires the image that they are with a label,
// and prints its listing, or `X,number,line`. Its two arguments name the label and the file. Arguments, read, one call, write:
// what is printed for an image is promised by that call.
#![tactic(auto)]

ghost use Rattle.std.specs.Prelude.{◌≡◌, length};

use arguments::{has_argument, label_argument};
use fire::OUTPUT;
use hexfire::fire_hex_alone;
use intake::read_whole;
use labels::Bits;
use replies::{Failure, SPACE, complain, read_input, write_output};
use std::fmt::{Display, Formatter};
use std::fs::File;
use std::io::writer;
use std::rt::Env;
use std::{fmt, str};

// A path of more bytes names no file.
const MOST_PATH: usize = 4096;

// The most bytes of HEX that are taken.
const MOST_HEX: usize = 1048576;

// One byte more is read, so that a longer text is noticed.
const HEX_SPACE: usize = MOST_HEX + 1;

// Why nothing was fired, or nothing printed.
#[derive(Clone, Copy)]
enum Refusal {
    Arguments,
    File,
    LongInput,
    Failed(Failure),
}

impl From<Failure> for Refusal {
    fn from(failure: Failure) -> Refusal {
        Refusal::Failed(failure)
    }
}

impl Display for Refusal {
    fn fmt<W: fmt::Write>(&self, f: &mut Formatter<W>) -> fmt::Result {
        match self {
            Refusal::Arguments => f.write_str(
                "the arguments are a label, 0 to 255, and the file of an M text",
            ),
            Refusal::File => f.write_str("the file of the M text can't be read"),
            Refusal::LongInput => write!(f, "standard input is longer than {MOST_HEX} bytes"),
            Refusal::Failed(failure) => failure.fmt(f),
        }
    }
}

// Zeros, where HEX is read.
fn hex_space() -> [u8; HEX_SPACE]
    ensures { 1048577 ≡ length result }
{
    [0; HEX_SPACE]
}

// Fires the HEX on standard input with this M text, and writes what comes of it. A part of the HEX isn't taken for the
// whole.
fn fire_input(rt: &HostRuntime, label: Bits, text: &[u8]) -> Result<(), Refusal> {
    let mut hex = hex_space();
    let length = read_input(&mut rt.stdin(), &mut hex)?;
    if MOST_HEX < length {
        return Err(Refusal::LongInput);
    }
    let mut output = [0u8; OUTPUT];
    let count = fire_hex_alone(text, &hex[..length], label, &mut output);
    // By `Print`, which gives up where a write is interrupted again and again.
    Ok(write_output(&mut writer(rt), &output[..count])?)
}

// Fires it with the M text of an open file.
fn fire_opened(rt: &HostRuntime, label: Bits, file: &mut File) -> Result<(), Refusal> {
    let mut text = [0u8; SPACE];
    let length = read_whole(file, &mut text).map_err(|_| Refusal::File)?;
    fire_input(rt, label, &text[..length])
}

// Fires it with the M text of a file, which stays open until all is said, why nothing was fired too: with standard input
// closed the file stands in its place. So it is opened here.
fn fire_file(rt: &HostRuntime, label: Bits, name: &str) -> Result<(), Refusal> {
    let mut file = File::open(rt, name).map_err(|_| Refusal::File)?;
    if let Err(refusal) = fire_opened(rt, label, &mut file) {
        complain(rt, "hexfiring", refusal);
    }
    Ok(())
}

// Fires it with the M text of the file that an argument names. One that is too long, or is not text, names none.
fn fire_argument(rt: &HostRuntime, label: Bits, k: usize) -> Result<(), Refusal> {
    let mut name = [0u8; MOST_PATH];
    let length = rt.arg(k, &mut name).map_err(|_| Refusal::File)?;
    let name = str::from_utf8(&name[..length]).map_err(|_| Refusal::File)?;
    fire_file(rt, label, name)
}

// The label that the first of two arguments names.
fn read_label(env: &impl Env) -> Option<Bits> {
    if !has_argument(env, 2) || has_argument(env, 3) {
        return None;
    }
    label_argument(env, 1)
}

// Fires what the two arguments and standard input are.
fn fire_arguments(rt: &HostRuntime) -> Result<(), Refusal> {
    let label = read_label(rt).ok_or(Refusal::Arguments)?;
    fire_argument(rt, label, 2)
}

fn main(rt: HostRuntime) {
    if let Err(refusal) = fire_arguments(&rt) {
        complain(&rt, "hexfiring", refusal);
    }
}
