// What the crates of the core share: the fields of a word, what an open call keeps, the control while the machine runs,
// and what passes between the two stages of a step.
#![tactic(auto)]

pub mod calls;
pub mod live;
pub mod stages;
pub mod word;
