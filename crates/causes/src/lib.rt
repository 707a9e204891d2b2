// The refusals: a case for each row of the table of document 01, "Text", and for each that a request added. A call of load,
// step, run, print or view that was carried out answers Ok, and one that is refused Err with its cause.
#![tactic(auto)]

ghost use Rattle.std.specs.Prelude.{◌≡◌};
ghost use Rattle.causes.specs.Causes.{outcome_of, number_of, cause_number};

// Why a call is refused, in the table's order.
#[derive(Clone, Copy)]
pub enum Cause {
    // The text is empty or too long.
    TextLength,
    // A line's letter, field count, digits or missing LF; or the first line is no M line.
    MalformedLine,
    // A number is outside its range, or a ninth G line.
    OutOfRange,
    // A kind is out of order, a second M line, or a number isn't rising.
    OutOfOrder,
    // The pair of the M line isn't valid.
    InvalidPair,
    // The lent words or labels are shorter than the size.
    ShortMemory,
    // The record isn't well-formed.
    IllFormed,
    // The output is shorter than the listing.
    ShortOutput,
    // An R line for register 0.
    ZeroRegister,
    // The tick of a view is above the limit.
    TickAboveLimit,
    // A record of HEX has a wrong form, type or sum; or the end is missing, or something follows it.
    MalformedRecord,
    // A record of HEX gives a byte outside memory, or one that was given before.
    MisplacedByte,
    // The pair of a G line isn't valid.
    GatePair,
}

impl Cause {
    // The number in the table. No discriminants: no enum has two that are equal, and that no two causes have one number
    // (same_outcome) is to be what refuses those.
    pub fn number(self) -> u8
        ensures { result ≡ cause_number self }
    {
        match self {
            Cause::TextLength => 1,
            Cause::MalformedLine => 2,
            Cause::OutOfRange => 3,
            Cause::OutOfOrder => 4,
            Cause::InvalidPair => 5,
            Cause::ShortMemory => 6,
            Cause::IllFormed => 7,
            Cause::ShortOutput => 8,
            Cause::ZeroRegister => 9,
            Cause::TickAboveLimit => 10,
            Cause::MalformedRecord => 11,
            Cause::MisplacedByte => 12,
            Cause::GatePair => 13,
        }
    }
}

// The number of a call that was carried out.
pub const DONE: u8 = 0;

// The number of how a call ended: the refusal's, or 0.
pub fn number_of(ended: Result<(), Cause>) -> u8
    ensures { result ≡ number_of (outcome_of ended) }
{
    match ended {
        Ok(()) => DONE,
        Err(cause) => cause.number(),
    }
}
