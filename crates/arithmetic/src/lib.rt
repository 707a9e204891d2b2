// What the arithmetic ops compute from two registers, and how many ticks they take.
#![tactic(auto)]

ghost use Rattle.std.specs.Prelude.{◌≡◌, ◌≤◌};
ghost use Rattle.model.specs.Word.{compute};
ghost use Rattle.model.specs.Ops.{multiply_count, multiply_ticks, arithmetic_ticks};
ghost use Rattle.arithmetic.specs.Arithmetic.{arithmetic_of};

// The ops 2 to 8, 23 and 24.
#[derive(Clone, Copy)]
pub enum Arithmetic {
    Add,
    Subtract,
    And,
    Or,
    Xor,
    Less,
    Multiply,
    Divide,
    Remainder,
}

// The quotient where the divisor is 0: every bit is set.
const NO_QUOTIENT: u32 = u32::MAX;

// The count that times op 8 where a factor is hidden: as many bits as the longest value has.
const HIDDEN_COUNT: u32 = 32;

// The ticks of a division, whoever may see its operands.
const DIVISION_TICKS: u32 = 34;

// The ticks of op 8 at its second factor y, 2 + ceiling(count / 4): the 2 are eight fourths, and three more round up, so
// that one sum does both.
#[tactic(auto, unfolding(model::specs::Ops::multiply_count, model::specs::Ops::multiply_ticks, model::specs::Ops::significant_bits))]
fn multiply_ticks(visible: bool, y: u32) -> u32
    ensures { result ≡ multiply_ticks (multiply_count visible y) }
{
    let count = if visible {
        u32::BITS - y.leading_zeros()
    } else {
        HIDDEN_COUNT
    };
    (count + 11) / 4
}

// What an arithmetic op computes.
#[tactic(auto, unfolding(model::specs::Word::compute))]
pub fn compute(f: Arithmetic, x: u32, y: u32) -> u32
    ensures { result ≡ compute (arithmetic_of f) x y }
{
    match f {
        Arithmetic::Add => x.wrapping_add(y),
        Arithmetic::Subtract => x.wrapping_sub(y),
        Arithmetic::And => x & y,
        Arithmetic::Or => x | y,
        Arithmetic::Xor => x ^ y,
        Arithmetic::Less => u32::from(x < y),
        Arithmetic::Multiply => x.wrapping_mul(y),
        Arithmetic::Divide => x.checked_div(y).unwrap_or(NO_QUOTIENT),
        Arithmetic::Remainder => x.checked_rem(y).unwrap_or(x),
    }
}

// Its ticks at the second operand y, where both operands' labels flow to the timing label or not.
#[tactic(auto, using(model::proofs::Multiply::count_le), unfolding(model::specs::Ops::multiply_ticks))]
pub fn ticks_of(f: Arithmetic, visible: bool, y: u32) -> u32
    ensures { (result ≡ arithmetic_ticks (arithmetic_of f) visible y) × (result ≤ 34) }
{
    match f {
        Arithmetic::Add
        | Arithmetic::Subtract
        | Arithmetic::And
        | Arithmetic::Or
        | Arithmetic::Xor
        | Arithmetic::Less => 1,
        Arithmetic::Multiply => multiply_ticks(visible, y),
        Arithmetic::Divide | Arithmetic::Remainder => DIVISION_TICKS,
    }
}
