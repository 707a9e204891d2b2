// The ranges of the record and of a text, under the names of specs/Numbers.antt.

// The most words of memory.
pub const MOST_WORDS: u32 = 2048;

// The most ticks of a limit: 2^24.
pub const MOST_TICKS: u32 = 16777216;

// The most gates.
pub const MOST_GATES: u32 = 8;

// How many registers there are.
pub const REGISTER_COUNT: usize = 16;

// The register that always reads 0 with the lowest label.
pub const ZERO_REGISTER: usize = 0;

// Values and pcs are below this number: 2^32.
pub const VALUE_COUNT: u64 = 4294967296;

// The most bytes of a text.
pub const LONGEST_TEXT: usize = 65535;

// The ends of a run but for 0, running.
pub const HALTED: u8 = 1;

pub const CLOCK_SPENT: u8 = 2;

pub const STALLED: u8 = 3;

// Why it stalled: the pc is not below the size, the word's label doesn't flow to the pc label, the op is unknown.
pub const OUTSIDE_MEMORY: u8 = 1;

pub const UNREADABLE: u8 = 2;

pub const UNKNOWN_OP: u8 = 3;

// The causes by which an upcall closes: op 19, spent time, a failed fetch, branch or jump or a halt.
pub const BY_ITS_END: u8 = 1;

pub const BY_SPENT_TIME: u8 = 2;

pub const BY_FAILURE: u8 = 3;
