// What load answers programs in other languages, of what was loaded: the record goes to its buffer unless the load was
// refused, and number and line to the caller. The module from_hex has the load from HEX.
#![tactic(auto)]

mod from_hex;

ghost use Rattle.std.specs.Prelude.{ℕ, ◌≡◌, List};
ghost use Rattle.record_calls.specs.RecordCalls.{left};
ghost use Rattle.load_calls.specs.Loads.{counted, loading_told, after_loading};

use causes::DONE;
pub use from_hex::after_loading_hex;
use header::Refusal;
use machine_record::Machine;
use record_calls::keep;

// A number is below this one; a line or a length stands above it.
const NUMBERS: u64 = 256;

// A number and a count in one answer, since a program in another language gets one number back.
pub fn counted(number: u8, count: u32) -> u64
    ensures { result ≡ counted number count }
{
    number as u64 + NUMBERS * count as u64
}

// What a load answers and leaves of the record's buffer. Where it was carried out, this line stands beside it: 0 of every load
// of ours, and no caller has to tell that one. Of the lent memory nothing is said here.
pub fn after_loading(loaded: Result<Machine, Refusal<u32>>, line: u32, record: &mut [u64]) -> u64
    ensures { (words labels : List ℕ) → left result «record».new words labels ≡ after_loading (loading_told line loaded words labels) «record».old }
{
    match loaded {
        Ok(machine) => {
            keep(Ok(()), machine, record);
            counted(DONE, line)
        }
        Err(refusal) => counted(refusal.cause.number(), refusal.line),
    }
}
