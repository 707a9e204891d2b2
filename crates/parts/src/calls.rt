// Open calls: which is the newest, of which kind it is, and what it keeps.
ghost use Rattle.std.specs.Prelude.{ℕ, ◌≤◌, ◌≡◌, true, refl};
ghost use Rattle.model.specs.declared.Call.{Call};
ghost use Rattle.model.specs.Record.{is_empty, is_gate, is_upcall, pair_of, return_of, end_tick_of};
ghost use Rattle.parts.specs.Calls.{newest_of, nearer, deadline_of};

use model::{Call, Pair};

// What holds an open call, or none: a place of the record, or a frame while the machine runs.
pub trait OpenCall: Copy {
    // The call that it holds.
    ghost call: { Self → Call };

    // The end tick that it has, if the call is an upcall.
    ghost end: { Self → ℕ };

    fn is_empty(self) -> bool
        ensures { result ≡ is_empty (call self) };

    fn is_gate(self) -> bool
        ensures { result ≡ is_gate (call self) };

    fn is_upcall(self) -> bool
        ensures { result ≡ is_upcall (call self) };

    fn end_tick(self) -> u64
        ensures { result ≡ end self };

    // An upcall's end tick is the one that its call keeps.
    ghost ends: { (c : Self) → is_upcall (call c) ≡ true → end c ≡ end_tick_of (call c) };
}

impl OpenCall for Call {
    ghost call = { λ c. c };

    ghost end = { λ c. end_tick_of c };

    fn is_empty(self) -> bool {
        matches!(self, Call::Empty)
    }

    fn is_gate(self) -> bool {
        matches!(self, Call::Gate(_, _))
    }

    fn is_upcall(self) -> bool {
        matches!(self, Call::Upcall(_, _, _))
    }

    fn end_tick(self) -> u64 {
        if let Call::Upcall(_, _, end) = self {
            end
        } else {
            0
        }
    }

    ghost ends = { λ c e. refl };
}

// The newest of two open calls.
pub fn newest(first: Call, second: Call) -> Call
    ensures { result ≡ newest_of first second }
{
    match second {
        Call::Empty => first,
        Call::Gate(_, _) | Call::Upcall(_, _, _) => second,
    }
}

// The pair that a call keeps.
pub fn kept_pair(call: Call) -> Pair
    ensures { result ≡ pair_of call }
{
    match call {
        Call::Empty => Pair { pc: 0, timing: 0 },
        Call::Gate(_, pair) | Call::Upcall(_, pair, _) => pair,
    }
}

// Where a call goes on when it closes.
pub fn return_pc(call: Call) -> u32
    ensures { result ≡ return_of call }
{
    match call {
        Call::Empty => 0,
        Call::Gate(back, _) | Call::Upcall(back, _, _) => back,
    }
}

// The nearer of a tick and the limit.
pub fn nearer(tick: u64, limit: u32) -> u32
    ensures { (result ≡ nearer tick limit) × (result ≤ limit) }
{
    if tick < limit as u64 {
        return tick as u32;
    }
    limit
}

// The tick by which a common op has to finish while this call is the newest.
pub fn deadline_of<C: OpenCall>(limit: u32, call: C) -> u32
    ensures { (result ≡ deadline_of (is_upcall (C.call call)) (C.end call) limit) × (result ≤ limit) }
{
    if call.is_upcall() {
        return nearer(call.end_tick(), limit);
    }
    limit
}
