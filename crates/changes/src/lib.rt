// What ops 15 to 18, 20 and 21 change, if their checks pass. Whether an op finishes in time isn't asked here.
#![tactic(auto)]

pub mod calls;
pub mod rows;
