// File names that are read, one a line.
ghost use Rattle.std.specs.Prelude.{◌≡◌, length, IfOk, IfSome};
ghost use Rattle.replies.specs.Reply.{IsCountOf};
ghost use Rattle.cabinet.specs.Names.{line_feed_in};

use std::io;
use std::io::Read;

// No path has so many bytes.
pub const MOST_NAME: usize = 4096;

// The byte that ends a line.
const LINE_FEED: u8 = b'\n';

// Why a line is no name.
#[derive(Clone, Copy)]
pub enum Unnamed {
    // It is longer than any path.
    TooLong,
    // The input can't be read.
    Failed,
}

impl From<io::Error> for Unnamed {
    fn from(_error: io::Error) -> Unnamed {
        Unnamed::Failed
    }
}

// Reads one byte: more would be waited for while a name is already whole. The library's `bytes` would try a read that was
// interrupted again, which counts as a failed one here.
fn read_byte<R: Read>(input: &mut R) -> io::Result<Option<u8>> {
    let mut space = [0u8; 1];
    let count = input.read(&mut space)?;
    Ok(space[..count].first().copied())
}

// The bytes of a name that took so many of a buffer. A buffer that is full has no room for the byte that ends a path.
fn name_of(count: usize, buf: &[u8]) -> Result<Option<usize>, Unnamed>
    ensures { IfOk result (λ name. IfSome name (λ n. IsCountOf n buf.now)) }
{
    if count < buf.len() {
        Ok(Some(count))
    } else {
        Err(Unnamed::TooLong)
    }
}

// Keeps a byte of a name behind those before it, where there is room, and gives how many it has then. The buffer is lent with
// its count: a `Vec` would take memory from a heap.
fn keep(byte: u8, count: usize, buf: &mut [u8]) -> usize {
    match buf.get_mut(count) {
        Some(place) => {
            *place = byte;
            count + 1
        }
        None => count,
    }
}

// Reads a name into the buffer, up to its line feed or the end of the input, and gives how many bytes it has, or `None`
// where there is none any more.
pub fn read_name<R: Read>(input: &mut R, buf: &mut [u8]) -> Result<Option<usize>, Unnamed>
    ensures { IfOk result (λ name. IfSome name (λ n. IsCountOf n buf.new)) }
{
    let mut count = 0;
    for _ in 0..u64::MAX {
        match read_byte(input)? {
            Some(LINE_FEED) => return name_of(count, buf),
            Some(byte) => count = keep(byte, count, buf),
            None if count == 0 => return Ok(None),
            None => return name_of(count, buf),
        }
    }
    Ok(None)
}

// A name with a line feed in it can't stand on a line of its own.
pub fn has_line_feed(name: &[u8]) -> bool
    ensures { result ≡ line_feed_in name.now (length name.now) }
{
    name.contains(&LINE_FEED)
}
