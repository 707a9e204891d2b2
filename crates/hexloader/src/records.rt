// The records judged one after the other, and the bytes that they give kept in places, one for each byte of memory.
ghost use Rattle.std.specs.Prelude.{◌≡◌, ◌+◌, ◌≤◌, length, take, drop};
ghost use Rattle.model.specs.Numbers.{record_head};
ghost use Rattle.model.specs.Hex.{bytes, records};
ghost use Rattle.model.specs.HexLoad.{is_free, give, judge_records};
ghost use Rattle.hexloader.specs.Inner.Judging.{malformed, verdict_of};
ghost use Rattle.hexloader.specs.Inner.Places.{numbers_of};

use causes::Cause;
use header::Refusal;
use hexreader::{DATA_DIGITS, Found, byte_at, read_record};

// Whether a byte can be given to a place: it is in memory, and has none yet.
fn is_free(places: &[Option<u8>], at: usize) -> bool
    ensures { result ≡ is_free (numbers_of places.now) at }
{
    at < places.len() && places[at].is_none()
}

// Gives the bytes of a record of this line, so many, to the places from its address on, or refuses the first that can't be
// given. Beside a refusal nothing is said of the places.
fn give_bytes(
    text: &[u8],
    address: u16,
    count: u8,
    line: u64,
    places: &mut [Option<u8>],
) -> Result<(), Refusal<u64>>
    requires { record_head + count ≤ length (bytes (drop 1 text.now)) }
    ensures { verdict_of result (numbers_of places.new) ≡ give line address (take count (drop record_head (bytes (drop 1 text.now)))) (numbers_of places.old) }
{
    for i in 0..count as usize {
        let at = address as usize + i;
        if !is_free(places, at) {
            return Err(Refusal {
                cause: Cause::MisplacedByte,
                line,
            });
        }
        places[at] = byte_at(text, DATA_DIGITS + 2 * i);
    }
    Ok(())
}

// A record of wrong form, type, sum or ending, on this line.
fn malformed(line: u64) -> Refusal<u64>
    ensures { result ≡ malformed line }
{
    Refusal {
        cause: Cause::MalformedRecord,
        line,
    }
}

// The records of a text, each judged, its bytes given where it is accepted. The end is the last of them. Beside a refusal
// nothing is said of the places.
pub(in crate) fn judge_records(hex: &[u8], places: &mut [Option<u8>]) -> Result<(), Refusal<u64>>
    ensures { verdict_of result (numbers_of places.new) ≡ judge_records 1 (records hex.now) (numbers_of places.old) }
{
    let mut at: usize = 0;
    let mut line: u64 = 1;
    // Each turn goes on behind the record that was read, wherever that is: no count and no iterator knows it beforehand.
    while at < hex.len() {
        let rest = &hex[at..];
        let read = read_record(rest);
        let next = at + read.next;
        // Taken apart as a line of a text is: what is not of the wanted kind ends the reading here.
        let Some(found) = read.found else {
            return Err(malformed(line));
        };
        let Found::Data { address, count } = found else {
            if next == hex.len() {
                return Ok(());
            }
            return Err(malformed(line + 1));
        };
        give_bytes(rest, address, count, line, places)?;
        at = next;
        line += 1;
    }
    Err(malformed(line))
}
