// The text format: its letters, and what reading a text finds: a number, fields, a line.

// What stands between the fields of a line, and behind its last one.
pub const COMMA: u8 = b',';

pub const LF: u8 = b'\n';

// No line has more fields.
pub const MOST_FIELDS: usize = 6;

// No number that is read has more digits.
pub const MOST_DIGITS: usize = 10;

// A number in the text and how many bytes its field takes, the comma before it included.
#[derive(Clone, Copy)]
pub struct Number {
    pub value: u64,
    pub length: usize,
}

// A line by its letter, with its numbers in their order; or one that is malformed, which is a line of the text too (`lines`)
// and is refused in its turn (`line_tests`).
#[derive(Clone, Copy)]
pub enum Line {
    M(u64, u64, u64, u64, u64, u64),
    G(u64, u64, u64),
    R(u64, u64, u64),
    W(u64, u64, u64),
    Malformed,
}

// A line, and how many bytes it takes: where the next one begins, as the line reader answers whatever it has read.
#[derive(Clone, Copy)]
pub struct Read {
    pub line: Line,
    pub next: usize,
}
