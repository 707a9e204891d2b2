// A record from words: each word is cut to what its field can hold.
ghost use Rattle.std.specs.Prelude.{◌≡◌, ◌<◌};
ghost use Rattle.encoder.specs.Places.{span};
ghost use Rattle.model.specs.Registers.{as_bank};
ghost use Rattle.machine_record.specs.Struct.{record_of};
ghost use Rattle.decoder.specs.Held.{word_at, low32, low8, low_label, pair_from, call_from, call_in, gate_in, fixed_in, control_in, registers_in, record_in};

use encoder::places;
use labels::{Bits, LABEL_COUNT};
use machine_record::Machine;
use model::numbers::VALUE_COUNT;
use model::{Call, CallGate, Control, Fixed, Pair, Registers};
use std::array;

// Bytes are below this number.
const BYTE_COUNT: u64 = 256;

// A slice that begins at the place is no plainer than buffer and place: the buffer may end before it.
// Word `at` of the buffer, 0 behind its end.
fn word(buffer: &[u64], at: usize) -> u64
    ensures { result ≡ word_at buffer.now at }
{
    buffer.get(at).copied().unwrap_or(0)
}

// A generic one of the three below would need a trait with just this cast in each impl.
// The low 32 bits of a word.
fn low32(x: u64) -> u32
    ensures { result ≡ low32 x }
{
    (x % VALUE_COUNT) as u32
}

// The low 8 bits of a word.
fn low8(x: u64) -> u8
    ensures { result ≡ low8 x }
{
    (x % BYTE_COUNT) as u8
}

// The label in the low bits of a word.
fn low_label(x: u64) -> Bits
    ensures { result ≡ low_label x }
{
    (x % LABEL_COUNT as u64) as Bits
}

// A pair from two words.
fn pair_from(pc: u64, timing: u64) -> Pair
    ensures { result ≡ pair_from pc timing }
{
    Pair {
        pc: low_label(pc),
        timing: low_label(timing),
    }
}

// A call from its kind, return pc, pair and end tick.
#[tactic(auto, unfolding(crate::specs::Held::call_from))]
fn call_from(kind: u64, back: u32, pair: Pair, tick: u64) -> Call
    ensures { result ≡ call_from kind back pair tick }
{
    match kind {
        places::GATE_CALL => Call::Gate(back, pair),
        places::UPCALL => Call::Upcall(back, pair, tick),
        _ => Call::Empty,
    }
}

// The call in the words from `at` on.
#[tactic(auto, unfolding(crate::specs::Held::call_in))]
fn call_in(buffer: &[u64], at: usize) -> Call
    requires { at < span }
    ensures { result ≡ call_in buffer.now at }
{
    let kind = word(buffer, at + places::CALL_KIND);
    let back = low32(word(buffer, at + places::CALL_RETURN_PC));
    let pc = word(buffer, at + places::CALL_PC_LABEL);
    let timing = word(buffer, at + places::CALL_TIMING_LABEL);
    let tick = word(buffer, at + places::CALL_END_TICK);
    call_from(kind, back, pair_from(pc, timing), tick)
}

// The gate in the words from `at` on.
#[tactic(auto, unfolding(crate::specs::Held::gate_in))]
fn gate_in(buffer: &[u64], at: usize) -> CallGate
    requires { at < span }
    ensures { result ≡ gate_in buffer.now at }
{
    let pc = word(buffer, at + places::GATE_PC_LABEL);
    let timing = word(buffer, at + places::GATE_TIMING_LABEL);
    let pair = pair_from(pc, timing);
    CallGate {
        entry: low32(word(buffer, at + places::GATE_ENTRY)),
        pair,
    }
}

// What no step changes.
fn fixed_in(buffer: &[u64]) -> Fixed
    ensures { result ≡ fixed_in buffer.now }
{
    Fixed {
        size: low32(word(buffer, places::SIZE)),
        limit: low32(word(buffer, places::LIMIT)),
        errorpc: low32(word(buffer, places::ERROR_PC)),
        count: low32(word(buffer, places::GATE_COUNT)),
        gates: array::from_fn(|k| gate_in(buffer, places::FIRST_GATE + places::GATE_SPAN * k)),
    }
}

// What a step changes besides registers and memory.
#[tactic(auto, unfolding(crate::specs::Held::control_in))]
fn control_in(buffer: &[u64]) -> Control
    ensures { result ≡ control_in buffer.now }
{
    let pair = pair_from(
        word(buffer, places::PC_LABEL),
        word(buffer, places::TIMING_LABEL),
    );
    let first = call_in(buffer, places::FIRST_CALL);
    let second = call_in(buffer, places::SECOND_CALL);
    Control {
        pc: low32(word(buffer, places::PC)),
        pair,
        clock: low32(word(buffer, places::CLOCK)),
        first,
        second,
        end: low8(word(buffer, places::END)),
        why: low8(word(buffer, places::WHY)),
    }
}

// The registers.
fn registers_in(buffer: &[u64]) -> Registers
    ensures { as_bank result ≡ registers_in buffer.now }
{
    Registers {
        values: array::from_fn(|k| low32(word(buffer, places::FIRST_VALUE + k))),
        labels: array::from_fn(|k| low_label(word(buffer, places::FIRST_LABEL + k))),
    }
}

// The record that the words give.
#[tactic(auto, unfolding(crate::specs::Held::record_in))]
pub fn machine_in(buffer: &[u64]) -> Machine
    ensures { record_of result ≡ record_in buffer.now }
{
    Machine {
        fixed: fixed_in(buffer),
        control: control_in(buffer),
        registers: registers_in(buffer),
    }
}
