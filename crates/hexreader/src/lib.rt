// Reading a text of Intel HEX: the byte that two digits write, and the record that a text begins with. The reader is lent
// the text from the record's own start on, and answers how many bytes of it the record takes. The bytes that a record
// gives are left where they stand: whoever wants one reads its two digits.
#![tactic(auto)]

ghost use Rattle.std.specs.Prelude.{◌≡◌, ◌≤◌, length, drop};
ghost use Rattle.model.specs.Numbers.{no_digit, no_byte, record_frame};
ghost use Rattle.model.specs.Hex.{digit_of, byte_of, bytes, record_of, line_end, read_record};
ghost use Rattle.hexreader.specs.Reading.{below, written_at, record_in, read_in};
ghost use Rattle.hexreader.specs.Inner.Total.{IsTotal, count_whole};
ghost use Rattle.hexreader.specs.Inner.Ends.{above_none, record_end};

use model::format::LF;

// What a record begins with.
const COLON: u8 = b':';

// What may stand before an LF.
const CR: u8 = b'\r';

// The base of the digits.
const BASE: u32 = 16;

// How many bytes a record has besides those that it gives: length, address, type and check byte.
const RECORD_FRAME: usize = 5;

// Where the digits of a record's bytes begin: of its length, of the two of its address, of its type, and of those that it
// gives.
const LENGTH_DIGITS: usize = 1;

const HIGH_DIGITS: usize = 3;

const LOW_DIGITS: usize = 5;

const TYPE_DIGITS: usize = 7;

pub const DATA_DIGITS: usize = 9;

// The types of records: bytes, and the end. Numbers of the format, any of which may stand there: an enum would be made of two of
// them and be matched again.
const DATA_TYPE: u8 = 0;

const END_TYPE: u8 = 1;

// What a record says: so many bytes from an address on, or the end.
#[derive(Clone, Copy)]
pub enum Found {
    Data { address: u16, count: u8 },
    End,
}

// A record, and how many bytes of the text it takes: where the next one begins. Of a bad record nothing is found, and `next`
// stands beside it as in the definition (`read_record`).
#[derive(Clone, Copy)]
pub struct Read {
    pub found: Option<Found>,
    pub next: usize,
}

// A bad record.
const BAD: Read = Read {
    found: None,
    next: 0,
};

// How many bytes a text of digits begins with, and their sum modulo 256.
#[derive(Clone, Copy)]
struct Total {
    count: usize,
    sum: u8,
}

// A digit's value, in either case.
fn digit_of(byte: u8) -> Option<u8>
    ensures { result ≡ below no_digit (digit_of byte) }
{
    let digit = char::from(byte).to_digit(BASE)?;
    Some(digit as u8)
}

// The byte that two digits write, the high one first.
fn byte_of(high: u8, low: u8) -> Option<u8>
    ensures { result ≡ below no_byte (byte_of high low) }
{
    let first = digit_of(high)?;
    let second = digit_of(low)?;
    Some(first * BASE as u8 + second)
}

// The byte that the two digits at a place write.
pub fn byte_at(text: &[u8], at: usize) -> Option<u8>
    ensures { result ≡ below no_byte (written_at text.now at) }
{
    let high = text.get(at)?;
    let low = text.get(at + 1)?;
    byte_of(*high, *low)
}

// The bytes of the record that a text begins with, counted and summed.
fn sum_bytes(text: &[u8]) -> Total
    ensures { IsTotal (bytes (drop 1 text.now)) result }
{
    let mut count: usize = 0;
    let mut sum: u8 = 0;
    // The count is an answer too: an iterator over pairs of digits would have to count and to stop at a bad one besides.
    while let Some(byte) = byte_at(text, LENGTH_DIGITS + 2 * count) {
        sum = sum.wrapping_add(byte);
        count += 1;
    }
    Total { count, sum }
}

// How many bytes the record has, where they are as many as the first of them says, and their sum is 0.
fn count_whole(text: &[u8]) -> Option<usize>
    ensures { result ≡ count_whole (bytes (drop 1 text.now)) }
{
    let length = byte_at(text, LENGTH_DIGITS)? as usize;
    let total = sum_bytes(text);
    if (total.count == length + RECORD_FRAME) & (total.sum == 0) {
        Some(total.count)
    } else {
        None
    }
}

// The record whose digits these are, by its type.
fn record_of(text: &[u8]) -> Option<Found>
    requires { record_frame ≤ length (bytes (drop 1 text.now)) }
    ensures { record_in text.now result ≡ record_of (bytes (drop 1 text.now)) }
{
    let count = byte_at(text, LENGTH_DIGITS)?;
    let high = byte_at(text, HIGH_DIGITS)?;
    let low = byte_at(text, LOW_DIGITS)?;
    match byte_at(text, TYPE_DIGITS)? {
        DATA_TYPE => {
            let address = u16::from_be_bytes([high, low]);
            Some(Found::Data { address, count })
        }
        END_TYPE if count == 0 => Some(Found::End),
        _ => None,
    }
}

// How many bytes end the line that a text begins with: an LF, or CR and LF.
#[tactic(auto, unfolding(model::specs::Hex::line_end))]
fn line_end(rest: &[u8]) -> Option<usize>
    ensures { result ≡ above_none (line_end rest.now) }
{
    match rest {
        [LF, ..] => Some(1),
        [CR, LF, ..] => Some(2),
        _ => None,
    }
}

// Where the record ends that a text begins with: behind a colon, its bytes, and the end of its line.
fn record_end(text: &[u8]) -> Option<usize>
    ensures { result ≡ record_end text.now }
{
    if *text.first()? != COLON {
        return None;
    }
    let digits = 1 + 2 * count_whole(text)?;
    let end = line_end(&text[digits..])?;
    Some(digits + end)
}

// The record that a text begins with. One that doesn't end is bad; one of an unknown type is bad as well, and still takes
// its bytes.
pub fn read_record(text: &[u8]) -> Read
    ensures { read_in text.now result ≡ read_record text.now }
{
    let Some(next) = record_end(text) else {
        return BAD;
    };
    Read {
        found: record_of(text),
        next,
    }
}
