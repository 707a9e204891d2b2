// A word of the program taken apart: the op's number, the register numbers a, b, c and d, and the number n.
#![tactic(auto, unfolding(model::specs::Word::op_field, model::specs::Word::a_field, model::specs::Word::b_field, model::specs::Word::c_field, model::specs::Word::d_field, model::specs::Word::n_field))]

ghost use Rattle.std.specs.Prelude.{◌<◌, ◌≡◌};
ghost use Rattle.model.specs.Numbers.{register_count};
ghost use Rattle.model.specs.Word.{op_field, a_field, b_field, c_field, d_field, n_field};

// What one stands for in each field of a word: 2^24, 2^20, 2^16, 2^12 and 2^8. What is below b's is n.
const OP_UNIT: u32 = 16777216;

const A_UNIT: u32 = 1048576;

const B_UNIT: u32 = 65536;

const C_UNIT: u32 = 4096;

const D_UNIT: u32 = 256;

// How many numbers a field of a register has.
const FIELD_COUNT: u32 = 16;

// The op's number.
pub fn op_of(w: u32) -> u32
    ensures { result ≡ op_field w }
{
    w / OP_UNIT
}

// The register numbers.
pub fn a_of(w: u32) -> usize
    ensures { (result ≡ a_field w) × (result < register_count) }
{
    (w / A_UNIT % FIELD_COUNT) as usize
}

pub fn b_of(w: u32) -> usize
    ensures { (result ≡ b_field w) × (result < register_count) }
{
    (w / B_UNIT % FIELD_COUNT) as usize
}

pub fn c_of(w: u32) -> usize
    ensures { (result ≡ c_field w) × (result < register_count) }
{
    (w % B_UNIT / C_UNIT) as usize
}

pub fn d_of(w: u32) -> usize
    ensures { (result ≡ d_field w) × (result < register_count) }
{
    (w % B_UNIT / D_UNIT % FIELD_COUNT) as usize
}

// The number n.
pub fn n_of(w: u32) -> u32
    ensures { result ≡ n_field w }
{
    w % B_UNIT
}

// A number as an index.
pub fn index(n: u32) -> usize
    ensures { result ≡ n }
{
    n as usize
}
