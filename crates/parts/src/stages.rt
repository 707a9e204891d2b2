// What passes between the two stages of a step: why the hot loop stopped, and what is then decided.
use labels::Bits;
use model::Pair;

// Why the hot loop stopped.
#[derive(Clone, Copy)]
pub enum Reason {
    // it has gone as far as it was asked to
    Out,
    // a common op that would finish past the deadline
    Late,
    // the pc is not below the size
    Outside,
    // the word's label does not flow to the pc label
    Unreadable,
    // a branch or jump in an upcall that failed its check
    Failed,
    // a word with another op
    Rest(u32),
}

// What an op changes that is carried out.
#[derive(Clone, Copy)]
pub enum Change {
    // nothing
    Pass,
    // a register gets a label
    SetLabel(usize, Bits),
    // on at this pc
    Goto(u32),
    // another pair
    Enter(Pair),
    // an upcall with its return pc, its pair and its end tick
    OpenUpcall(u32, Pair, u64),
    // a gate call, by the gate's pc and pair
    OpenGate(u32, Pair),
    CloseGate,
    Stop,
}

// What a step does: it spends the clock, stalls, closes the upcall with a cause, or carries a change out in so many ticks.
// Why it stalls and the cause are the numbers as they are written: an enum's would only be turned into them by `as u8`.
#[derive(Clone, Copy)]
pub enum Decision {
    Spend,
    Stall(u8),
    Close(u8),
    Carry(u32, Change),
}
