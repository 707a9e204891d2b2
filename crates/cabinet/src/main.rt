// The program `cabinet`: fires file after file in one memory that it never clears, as a cabinet does that is never
// restarted. Its arguments name the files. With no argument standard input does, one name a line, and each file is fired
// and its listing written before the next name is waited for. Before a listing stands a line with the file's name.
#![tactic(auto)]

mod names;

use arguments::has_argument;
use fire::{MOST_WORDS, OUTPUT, fire_whole};
use intake::read_whole;
use labels::Bits;
use names::{MOST_NAME, Unnamed, has_line_feed, read_name};
use replies::{SPACE, complain};
use std::env::FillError;
use std::fs::File;
use std::io::Error;
use std::rt::Env;
use std::{io, str};

// What the memory holds before the first file: numbers that no file has put there.
const STRAY_WORD: u32 = 0xA5A5_A5A5;

const STRAY_LABEL: Bits = 0xA5;

// The system's numbers for an argument that is none, a name that is too long, and bytes that are no text.
const EINVAL: i32 = 22;

const ENAMETOOLONG: i32 = 36;

const EILSEQ: i32 = 84;

// The one memory, which each file is fired in as the file before it left it.
#[derive(Drop)]
struct Memory {
    words: [u32; MOST_WORDS],
    labels: [Bits; MOST_WORDS],
}

// Writes a listing behind the line with the file's name, piece by piece: of a line that `println!` gathers a pipe without room
// takes nothing.
fn write_listing(rt: &impl Print, name: &str, listing: &[u8]) -> io::Result<()> {
    rt.write_all(b"= ")?;
    rt.write_all(name.as_bytes())?;
    rt.write_all(b"\n")?;
    rt.write_all(listing)
}

// Says what can't be fired, which need not be text, with the system's words for the reason. A failure without a number is
// of a name that the system isn't asked for: a byte of it is 0.
fn say_of(rt: &HostRuntime, what: &[u8], failure: Error) -> io::Result<()> {
    let number = failure.raw_os_error().unwrap_or(EINVAL);
    let errors = rt.stderr();
    errors.write_all(b"cabinet: ")?;
    errors.write_all(what)?;
    errors.write_all(b": ")?;
    let words = Error::from_raw_os_error(number).to_string(rt.alloc())?;
    let reason = words.as_str().split_once(" (os error ");
    rt.eprintln(reason.map_or(words.as_str(), |(reason, _)| reason))
}

fn complain_of(rt: &HostRuntime, what: &[u8], failure: Error) {
    let _ = say_of(rt, what, failure);
}

// Fires a file in the memory. It stays open until its listing is written: who waits at its other end sees no end before. A file
// that can't be read whole isn't fired. Fails where standard output doesn't take what is written.
fn fire_file(rt: &HostRuntime, name: &str, memory: &mut Memory) -> io::Result<()> {
    let mut file = match File::open(rt, name) {
        Ok(file) => file,
        Err(failure) => {
            complain_of(rt, name.as_bytes(), failure);
            return Ok(());
        }
    };
    let mut text = [0u8; SPACE];
    let count = match read_whole(&mut file, &mut text) {
        Ok(count) => count,
        Err(failure) => {
            complain_of(rt, name.as_bytes(), failure);
            return Ok(());
        }
    };
    let mut out = [0u8; OUTPUT];
    let n = fire_whole(
        &text[..count],
        &mut memory.words,
        &mut memory.labels,
        &mut out,
    );
    write_listing(rt, name, &out[..n])
}

// Fires the file of a name, unless that is no text.
fn fire_named(rt: &HostRuntime, name: &[u8], memory: &mut Memory) -> io::Result<()> {
    match str::from_utf8(name) {
        Ok(name) => fire_file(rt, name, memory),
        Err(_) => {
            complain_of(rt, name, Error::from_raw_os_error(EILSEQ));
            Ok(())
        }
    }
}

// Fires the files that the arguments name. One that is too long, or that would not stand on one line, names none.
fn fire_arguments(rt: &HostRuntime, memory: &mut Memory) -> io::Result<()> {
    // The library's `args` takes memory from a heap, and fails as a whole where one argument is no text.
    for i in 1..usize::MAX {
        let mut name = [0u8; MOST_NAME];
        match rt.arg(i, &mut name) {
            Ok(length) if has_line_feed(&name[..length]) => {
                complain(rt, "cabinet", "an argument has a line feed in it");
            }
            Ok(length) => fire_named(rt, &name[..length], memory)?,
            Err(FillError::TooLong) => {
                complain_of(rt, b"an argument", Error::from_raw_os_error(ENAMETOOLONG));
            }
            Err(FillError::NotPresent) => break,
        }
    }
    Ok(())
}

// Fires the files that standard input names, for as long as names come.
fn fire_names(rt: &HostRuntime, memory: &mut Memory) -> io::Result<()> {
    let mut input = rt.stdin();
    for _ in 0..u64::MAX {
        let mut name = [0u8; MOST_NAME];
        match read_name(&mut input, &mut name) {
            Ok(Some(length)) => fire_named(rt, &name[..length], memory)?,
            Ok(None) => break,
            Err(Unnamed::TooLong) => {
                complain(rt, "cabinet", "a name on standard input is too long");
            }
            Err(Unnamed::Failed) => {
                complain(rt, "cabinet", "standard input can't be read");
                break;
            }
        }
    }
    Ok(())
}

// Fires what is named, in the memory of this one run.
fn fire_all(rt: &HostRuntime, memory: &mut Memory) -> io::Result<()> {
    if has_argument(rt, 1) {
        fire_arguments(rt, memory)
    } else {
        fire_names(rt, memory)
    }
}

fn main(rt: HostRuntime) {
    let mut memory = Memory {
        words: [STRAY_WORD; MOST_WORDS],
        labels: [STRAY_LABEL; MOST_WORDS],
    };
    if fire_all(&rt, &mut memory).is_err() {
        complain(&rt, "cabinet", "standard output can't be written");
    }
}
