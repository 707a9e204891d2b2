// A record's words, in the order of their places.
ghost use Rattle.std.specs.Prelude.{◌≡◌, ◌++◌, map};
ghost use Rattle.std.proofs.lemmas.List.Edits.{sets};
ghost use Rattle.machine_record.specs.Struct.{record_of};
ghost use Rattle.encoder.specs.Layout.{kept_words, call_words, gate_words, fixed_words, control_words, words_of as Layout·words_of};
ghost use Rattle.encoder.specs.Places.{size, pc, first_value};

use crate::places;
use crate::places::{MOST_GATES, SPAN};
use machine_record::Machine;
use model::{Call, CallGate, Control, Fixed, Pair, Registers};

// A call's words: zeros where a call of its kind keeps nothing.
fn call_words(call: Call) -> [u64; places::CALL_SPAN]
    ensures { result ≡ call_words call }
{
    let none = Pair { pc: 0, timing: 0 };
    match call {
        Call::Empty => kept_words(places::EMPTY, 0, none, 0),
        Call::Gate(back, pair) => kept_words(places::GATE_CALL, back, pair, 0),
        Call::Upcall(back, pair, tick) => kept_words(places::UPCALL, back, pair, tick),
    }
}

// The words of a call of this kind, with what it keeps.
fn kept_words(kind: u64, back: u32, pair: Pair, tick: u64) -> [u64; places::CALL_SPAN]
    ensures { result ≡ kept_words kind back pair tick }
{
    [kind, back.into(), pair.pc.into(), pair.timing.into(), tick]
}

// A gate's words.
fn gate_words(gate: CallGate) -> [u64; places::GATE_SPAN]
    ensures { result ≡ gate_words gate }
{
    [
        gate.entry.into(),
        gate.pair.pc.into(),
        gate.pair.timing.into(),
    ]
}

// The gates' words, one gate behind another.
fn gates_words(gates: [CallGate; MOST_GATES]) -> [[u64; places::GATE_SPAN]; MOST_GATES]
    ensures { result ≡ map gate_words gates }
{
    gates.map(gate_words)
}

// Puts what no step changes.
fn put_fixed(fixed: Fixed, words: &mut [u64; SPAN])
    ensures { words.new ≡ sets words.old size (fixed_words fixed) }
{
    words[places::SIZE] = fixed.size.into();
    words[places::LIMIT] = fixed.limit.into();
    words[places::ERROR_PC] = fixed.errorpc.into();
    words[places::GATE_COUNT] = fixed.count.into();
    let gates = gates_words(fixed.gates);
    words[places::FIRST_GATE..places::PC].copy_from_slice(gates.as_flattened());
}

// Puts what a step changes besides registers and memory.
fn put_control(control: Control, words: &mut [u64; SPAN])
    ensures { words.new ≡ sets words.old pc (control_words control) }
{
    words[places::PC] = control.pc.into();
    words[places::PC_LABEL] = control.pair.pc.into();
    words[places::TIMING_LABEL] = control.pair.timing.into();
    words[places::CLOCK] = control.clock.into();
    words[places::FIRST_CALL..places::SECOND_CALL].copy_from_slice(&call_words(control.first));
    words[places::SECOND_CALL..places::END].copy_from_slice(&call_words(control.second));
    words[places::END] = control.end.into();
    words[places::WHY] = control.why.into();
}

// Puts the register values, and the register labels behind them.
fn put_registers(registers: Registers, words: &mut [u64; SPAN])
    ensures { words.new ≡ sets words.old first_value (registers.values ++ registers.labels) }
{
    let Registers { values, labels } = registers;
    words[places::FIRST_VALUE..places::FIRST_LABEL].copy_from_slice(&values.map(u64::from));
    words[places::FIRST_LABEL..].copy_from_slice(&labels.map(u64::from));
}

// A record's words.
pub fn words_of(machine: Machine) -> [u64; SPAN]
    ensures { result ≡ Layout·words_of (record_of machine) }
{
    let mut words = [0; SPAN];
    put_fixed(machine.fixed, &mut words);
    put_control(machine.control, &mut words);
    put_registers(machine.registers, &mut words);
    words
}
