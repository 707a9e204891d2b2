// The control while the machine runs. Its open calls are frames with a field for each part, the newest on top of the
// older: an enum in their place would be built anew at each change.
ghost use Rattle.std.specs.Prelude.{ℕ, ◌≡◌, refl};
ghost use Rattle.model.specs.declared.Call.{Call};
ghost use Rattle.parts.specs.Live.{call_of, upcall_ends, no_frame, frame_of, live_of, control_of};

use crate::calls::OpenCall;
use model::{Call, Control, Pair};

// What a frame holds: no call, a gate call, or above that an upcall. Numbers and no enum: any number may stand in a frame, and
// what each means is promised (`call_of`).
pub const NO_CALL: u16 = 0;

pub const GATE_CALL: u16 = 1;

pub const UPCALL: u16 = 2;

// An open call with a field for each part. The kind takes two bytes, so that the struct has none that mean nothing.
#[derive(Clone, Copy)]
pub struct Frame {
    pub end: u64,
    pub back: u32,
    pub pair: Pair,
    pub kind: u16,
}

// The control of a machine that runs. `end` and `why` are the record's own numbers: one from outside may have any byte there,
// and `well_formed` refuses the others.
#[derive(Clone, Copy)]
pub struct Live {
    pub pc: u32,
    pub pair: Pair,
    pub clock: u32,
    pub newest: Frame,
    pub older: Frame,
    pub end: u8,
    pub why: u8,
}

impl Frame {
    // No open call.
    pub fn none() -> Frame
        ensures { result ≡ no_frame }
    {
        Frame {
            end: 0,
            back: 0,
            pair: Pair { pc: 0, timing: 0 },
            kind: NO_CALL,
        }
    }
}

#[tactic(auto, unfolding(crate::specs::Live::call_of))]
impl OpenCall for Frame {
    ghost call = { call_of };

    ghost end = { λ f. f.end };

    fn is_empty(self) -> bool {
        self.kind == NO_CALL
    }

    fn is_gate(self) -> bool {
        self.kind == GATE_CALL
    }

    fn is_upcall(self) -> bool {
        GATE_CALL < self.kind
    }

    fn end_tick(self) -> u64 {
        self.end
    }

    ghost ends = { upcall_ends };
}

impl From<Call> for Frame {
    ghost from_gives = { λ c f. f ≡ frame_of c };

    fn from(call: Call) -> Frame {
        match call {
            Call::Empty => Frame::none(),
            Call::Gate(back, pair) => Frame {
                end: 0,
                back,
                pair,
                kind: GATE_CALL,
            },
            Call::Upcall(back, pair, end) => Frame {
                end,
                back,
                pair,
                kind: UPCALL,
            },
        }
    }
}

#[tactic(auto, unfolding(crate::specs::Live::call_of))]
impl From<Frame> for Call {
    ghost from_gives = { λ f c. c ≡ call_of f };

    fn from(frame: Frame) -> Call {
        match frame.kind {
            NO_CALL => Call::Empty,
            GATE_CALL => Call::Gate(frame.back, frame.pair),
            _ => Call::Upcall(frame.back, frame.pair, frame.end),
        }
    }
}

// The control of a machine that runs on from this one.
impl From<Control> for Live {
    ghost from_gives = { λ c l. l ≡ live_of c };

    fn from(control: Control) -> Live {
        let below = Frame::from(control.first);
        let (newest, older) = if control.second.is_empty() {
            (below, Frame::none())
        } else {
            (Frame::from(control.second), below)
        };
        Live {
            pc: control.pc,
            pair: control.pair,
            clock: control.clock,
            newest,
            older,
            end: control.end,
            why: control.why,
        }
    }
}

// The same as the record holds it: a lone call in the first place.
impl From<Live> for Control {
    ghost from_gives = { λ l c. c ≡ control_of l };

    fn from(live: Live) -> Control {
        let call = Call::from(live.newest);
        let (first, second) = if live.older.is_empty() | live.newest.is_empty() {
            (call, Call::Empty)
        } else {
            (Call::from(live.older), call)
        };
        Control {
            pc: live.pc,
            pair: live.pair,
            clock: live.clock,
            first,
            second,
            end: live.end,
            why: live.why,
        }
    }
}
