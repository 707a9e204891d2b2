// What load from HEX answers programs in other languages: its line goes to a word that the caller lends.
ghost use Rattle.std.specs.Prelude.{ℕ, ◌≡◌, List};
ghost use Rattle.record_calls.specs.RecordCalls.{left};
ghost use Rattle.load_calls.specs.Loads.{loading_told, after_loading_hex};

use causes::DONE;
use header::Refusal;
use machine_record::Machine;
use record_calls::keep;

// What a load from HEX answers and leaves of the record's buffer and the line. Where it was carried out, the line told stands
// beside it, as with a load from a text. Of the lent memory nothing is said here.
pub fn after_loading_hex(
    loaded: Result<Machine, Refusal<u64>>,
    told: u64,
    record: &mut [u64],
    line: &mut u64,
) -> u64
    ensures { (words labels : List ℕ) → record { left = left result «record».new words labels; line = line.new } ≡ after_loading_hex (loading_told told loaded words labels) «record».old }
{
    match loaded {
        Ok(machine) => {
            keep(Ok(()), machine, record);
            *line = told;
            DONE as u64
        }
        Err(refusal) => {
            *line = refusal.line;
            refusal.cause.number() as u64
        }
    }
}
