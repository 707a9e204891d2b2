// The machine's record: its struct, the record before the first step, and whether a record is well-formed and lent memory whole.
#![tactic(auto)]

ghost use Rattle.std.specs.Prelude.{◌≡◌};
ghost use Rattle.model.specs.Record.{lent};
ghost use Rattle.model.specs.WellFormed.{is_blank, well_formed, lent_whole};
ghost use Rattle.model.specs.Load.{machine_of_header};
ghost use Rattle.machine_record.specs.Struct.{record_of};

use labels::{Bits, Label};
use model::numbers::{MOST_GATES, REGISTER_COUNT, ZERO_REGISTER};
use model::{Call, CallGate, Control, Fixed, Pair, Registers};
use wellformed::{calls_well_formed, end_in_range, fixed_in_range, gates_valid, is_valid};

mod wellformed;

// The machine record.
#[derive(Clone, Copy)]
pub struct Machine {
    pub fixed: Fixed,
    pub control: Control,
    pub registers: Registers,
}

// Whether the lent words and their labels, the marks, are each at least as long as the size. They are two slices in every
// public call, as programs in other languages lend them.
#[tactic(auto, unfolding(model::specs::WellFormed::lent_whole))]
pub fn is_lent_whole(size: u32, words: &[u32], marks: &[Bits]) -> bool
    ensures { result ≡ lent_whole size (lent words.now marks.now) }
{
    let count = size as usize;
    count <= words.len() && count <= marks.len()
}

// Whether a register or word has value 0 and the lowest label.
pub fn is_blank(label: Bits, value: u32) -> bool
    ensures { result ≡ is_blank label value }
{
    value == 0 && Label(label).is_lowest()
}

impl Machine {
    // The record before its first step: clock, end and why at 0, no open call, no gate, all registers of value 0 and the
    // lowest label.
    pub fn blank(size: u32, errorpc: u32, pc: u32, pair: Pair, limit: u32) -> Machine
        ensures { record_of result ≡ machine_of_header (record { size = size; errorpc = errorpc; pc = pc; p = pair.pc; t = pair.timing; limit = limit }) }
    {
        let none = CallGate {
            entry: 0,
            pair: Pair { pc: 0, timing: 0 },
        };
        let gates = [none; MOST_GATES as usize];
        let fixed = Fixed {
            size,
            limit,
            errorpc,
            count: 0,
            gates,
        };
        let control = Control {
            pc,
            pair,
            clock: 0,
            first: Call::Empty,
            second: Call::Empty,
            end: 0,
            why: 0,
        };
        let registers = Registers {
            values: [0; REGISTER_COUNT],
            labels: [Label::LOWEST.0; REGISTER_COUNT],
        };
        Machine {
            fixed,
            control,
            registers,
        }
    }

    // Whether the record is well-formed.
    #[tactic(auto, unfolding(model::specs::WellFormed::well_formed, model::specs::WellFormed::fixed_in_range, model::specs::WellFormed::zero_reads))]
    pub fn is_well_formed(self) -> bool
        ensures { result ≡ well_formed (record_of self) }
    {
        let fixed = self.fixed;
        let control = self.control;
        let Registers { values, labels } = self.registers;
        fixed_in_range(fixed.size, fixed.limit, fixed.count)
            && end_in_range(control)
            && control.clock <= fixed.limit
            && is_valid(control.pair)
            && calls_well_formed(control)
            && is_blank(labels[ZERO_REGISTER], values[ZERO_REGISTER])
            && gates_valid(fixed.gates, fixed.count)
    }
}
