// The parts of the machine record. The crate has no function: it holds the definitions of the machine, in specs/, and
// the laws about them, in proofs/. The crate `machine` puts the parts together and runs them.
#![tactic(auto)]

pub mod format;
pub mod judging;
pub mod numbers;

use labels::Bits;
use numbers::{MOST_GATES, REGISTER_COUNT};

// A pc label and a timing label (the paper's place label p and clock label t).
#[derive(Clone, Copy)]
pub struct Pair {
    pub pc: Bits,
    pub timing: Bits,
}

// A call gate: where a gate call through it goes on, and under which pair.
#[derive(Clone, Copy)]
pub struct CallGate {
    pub entry: u32,
    pub pair: Pair,
}

// One of the two places for open calls. A call keeps its return pc and pair, an upcall also its end tick.
#[derive(Clone, Copy)]
pub enum Call {
    Empty,
    Gate(u32, Pair),
    Upcall(u32, Pair, u64),
}

// What a call asks of the machine: one step, the run, or the run to a tick.
#[derive(Clone, Copy)]
pub enum Request {
    Step,
    Run,
    RunTo(u64),
}

// What no step changes.
#[derive(Clone, Copy)]
pub struct Fixed {
    pub size: u32,
    pub limit: u32,
    pub errorpc: u32,
    pub count: u32,
    pub gates: [CallGate; MOST_GATES as usize],
}

// What a step reads and changes besides registers and memory. `end` is 0 running, 1 halted, 2 clock spent, 3 stalled;
// `why` is 1 to 3 where it stalled. Both are numbers and no enums: a record from outside may have any byte there, which
// `well_formed` refuses.
#[derive(Clone, Copy)]
pub struct Control {
    pub pc: u32,
    pub pair: Pair,
    pub clock: u32,
    pub first: Call,
    pub second: Call,
    pub end: u8,
    pub why: u8,
}

// The registers: the value and the label of each.
#[derive(Clone, Copy)]
pub struct Registers {
    pub values: [u32; REGISTER_COUNT],
    pub labels: [Bits; REGISTER_COUNT],
}
