// Where each number of a record stands in its buffer: the names and numbers of specs/Places.antt.
use model::numbers;

// How many words a record takes.
pub const SPAN: usize = 76;

// The most gates, as a length: a record has places for so many.
pub const MOST_GATES: usize = numbers::MOST_GATES as usize;

// How many words of memory there are.
pub const SIZE: usize = 0;
// The limit of the clock, in ticks.
pub const LIMIT: usize = 1;
// Where a failed fetch goes on.
pub const ERROR_PC: usize = 2;
// How many gates there are.
pub const GATE_COUNT: usize = 3;
// The first of eight gates.
pub const FIRST_GATE: usize = 4;

// How many words a gate takes: the three that follow, counted from the gate's place.
pub const GATE_SPAN: usize = 3;
// Where it leads.
pub const GATE_ENTRY: usize = 0;
// The pc label that it gives.
pub const GATE_PC_LABEL: usize = 1;
// The timing label that it gives.
pub const GATE_TIMING_LABEL: usize = 2;

// How many words an open call takes: the five that follow, counted from the call's place.
pub const CALL_SPAN: usize = 5;
// One of the three kinds below.
pub const CALL_KIND: usize = 0;
// Where it returns to.
pub const CALL_RETURN_PC: usize = 1;
// The pc label that it returns to.
pub const CALL_PC_LABEL: usize = 2;
// The timing label that it returns to.
pub const CALL_TIMING_LABEL: usize = 3;
// The tick at which an upcall ends.
pub const CALL_END_TICK: usize = 4;

// Kinds are numbers of the record's format: an enum of the three would be matched case by case with the enum Call, as they are.
// No call is open here.
pub const EMPTY: u64 = 0;
// A gate call.
pub const GATE_CALL: u64 = 1;
// An upcall.
pub const UPCALL: u64 = 2;

// The pc.
pub const PC: usize = 28;
// The pc label.
pub const PC_LABEL: usize = 29;
// The timing label.
pub const TIMING_LABEL: usize = 30;
// The clock.
pub const CLOCK: usize = 31;
// The older of the two calls.
pub const FIRST_CALL: usize = 32;
// The newer one.
pub const SECOND_CALL: usize = FIRST_CALL + CALL_SPAN;
// The end.
pub const END: usize = 42;
// Why the run stalled.
pub const WHY: usize = 43;
// The value of register 0. Those of the other fifteen follow.
pub const FIRST_VALUE: usize = 44;
// The label of register 0. Those of the other fifteen follow.
pub const FIRST_LABEL: usize = 60;
