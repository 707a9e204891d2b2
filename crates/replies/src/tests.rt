// `reply_to` as another's program would call it. The promise speaks of the bytes that are written; that there are any, and
// what is said where an input can't be read or an output takes no more, is seen here.
ghost use Rattle.replies.specs.Reply.{IsCountOf};

use crate::{Failure, reply_to};
use std::io;
use std::io::{ErrorKind, Read};

const ROOM: usize = 8;

// The call: the text from behind, as far as there is room, and how many bytes that is.
fn turn_round(text: &[u8], space: &mut [u8; ROOM]) -> usize
    ensures { IsCountOf result space.new }
{
    let count = text.len().min(ROOM);
    space[..count].copy_from_slice(&text[..count]);
    space[..count].reverse();
    count
}

// An input of which every read fails.
#[derive(Drop)]
struct Broken;

impl Read for Broken {
    fn read(&mut self, _buf: &mut [u8]) -> io::Result<usize> {
        Err(ErrorKind::Other.into())
    }
}

#[test]
fn what_the_call_gives_is_written(rt: HostRuntime) {
    for (text, reply) in [("", "...."), ("ab", "ba.."), ("abcd", "dcba")] {
        let mut input = text.as_bytes();
        let mut written = *b"....";
        let mut output = &mut written[..];
        let replied = reply_to(&mut input, &mut output, &mut [0; ROOM], turn_round);
        assert!(rt; replied.is_ok(), "at {text}");
        assert!(rt; input.is_empty(), "at {text}");
        assert_eq!(rt; written.as_slice(), reply.as_bytes(), "at {text}");
    }
}

#[test]
fn what_went_wrong_is_told(rt: HostRuntime) {
    let mut written = *b"....";
    let unread = reply_to(
        &mut Broken,
        &mut &mut written[..],
        &mut [0; ROOM],
        turn_round,
    );
    assert!(rt; matches!(unread, Err(Failure::Unread)));
    assert_eq!(rt; written, *b"....");
    let unwritten = reply_to(
        &mut &b"abcde"[..],
        &mut &mut written[..],
        &mut [0; ROOM],
        turn_round,
    );
    assert!(rt; matches!(unwritten, Err(Failure::Unwritten)));
}
