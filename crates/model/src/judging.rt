// What a line of a text is judged by: the kinds in their order, the line before it, and the numbers of the M line.

// The kinds of lines, in the order in which they come: M, G, R, W.
#[derive(Clone, Copy)]
pub enum Kind {
    HeaderLine,
    GateLine,
    RegisterLine,
    WordLine,
}

// The line before: its kind, and its register number or address (0 for M and G).
#[derive(Clone, Copy)]
pub struct Last {
    pub kind: Kind,
    pub number: u64,
}

// The numbers of the M line, in their order.
#[derive(Clone, Copy)]
pub struct Header {
    pub size: u64,
    pub errorpc: u64,
    pub pc: u64,
    pub p: u64,
    pub t: u64,
    pub limit: u64,
}
