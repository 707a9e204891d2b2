// A machine record written into a lent buffer of 64-bit words, one number a word. specs/Places.antt says where.
#![tactic(auto)]

ghost use Rattle.std.specs.Prelude.{◌≡◌};
ghost use Rattle.machine_record.specs.Struct.{record_of};
ghost use Rattle.encoder.specs.Writing.{written_of, write as Writing·write};

pub use encode::words_of;
use machine_record::Machine;
pub use places::SPAN;

mod encode;
pub mod places;

// Writes the record's words at the buffer's start. Writes nothing, and says so, where the buffer is too short.
#[tactic(auto, unfolding(crate::specs::Writing::write))]
pub fn write(machine: Machine, buffer: &mut [u64]) -> bool
    ensures { written_of result buffer.new ≡ Writing·write (record_of machine) buffer.old }
{
    if buffer.len() < SPAN {
        return false;
    }
    buffer[..SPAN].copy_from_slice(&words_of(machine));
    true
}
