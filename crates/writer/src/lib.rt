// Writing a line of the text format: its letter, its fields, each a comma and a number in base ten, and an LF. A line is
// written into the output's rest, which the caller lends from where the line before it ended.
#![tactic(auto)]

ghost use Rattle.std.specs.Prelude.{◌≡◌, ◌∷◌, ◌≤◌, ◌<◌, length};
ghost use Rattle.model.specs.Numbers.{comma, most_fields};
ghost use Rattle.model.specs.Listing.{decimal, fields};
ghost use Rattle.writer.specs.Writing.{answer, writing};
ghost use Rattle.writer.specs.Inner.Wrote.{Wrote};

use model::format::{COMMA, LF, MOST_FIELDS};

// The letter of a refusal's line, which the programs print in place of what they can't print.
pub const X: u8 = b'X';

// Writes a line and gives how many bytes it takes. Where the rest is too short for it nothing is written, and the answer
// is the same: so a line is measured by lending an empty rest. More numbers than a line has are no line, of 0 bytes.
// That is 0 and not None, since callers add the lengths up: none of them hands in so many, and each would need an arm.
pub fn write_line(out: &mut [u8], letter: u8, numbers: &[u64]) -> usize
    ensures { answer result out.new ≡ writing letter numbers.now out.old }
{
    if MOST_FIELDS < numbers.len() {
        return 0;
    }
    let count = 2 + fields_length(numbers);
    if out.len() < count {
        return count;
    }
    out[0] = letter;
    let last = 1 + put_fields(&mut out[1..], numbers);
    out[last] = LF;
    count
}

// How many bytes the fields take.
#[tactic(auto, using(texts::proofs::Decimal::most_digits_lem))]
fn fields_length(numbers: &[u64]) -> usize
    requires { length numbers.now ≤ most_fields }
    ensures { result ≡ length (fields numbers.now) }
{
    numbers.iter().map(|n| 1 + digit_count(*n)).sum()
}

// How many digits a number has. Most numbers of a listing are short, and one digit is told without a logarithm.
fn digit_count(n: u64) -> usize
    ensures { result ≡ length (decimal n) }
{
    if n < 10 {
        return 1;
    }
    1 + n.checked_ilog10().unwrap_or(0) as usize
}

// Writes the fields, each behind the one before it.
fn put_fields(out: &mut [u8], numbers: &[u64]) -> usize
    requires { length (fields numbers.now) ≤ length out.old }
    ensures { Wrote (fields numbers.now) out.old result out.new }
{
    let mut at = 0;
    for n in numbers {
        at += put_field(&mut out[at..], *n);
    }
    at
}

// Writes a comma and a number.
fn put_field(out: &mut [u8], n: u64) -> usize
    requires { length (decimal n) < length out.old }
    ensures { Wrote (comma ∷ decimal n) out.old result out.new }
{
    out[0] = COMMA;
    1 + put_number(&mut out[1..], n)
}

// Writes a number, its last digit first; the first one is what is left, and is not divided again. By hand: the library's
// writing into a slice promises no bytes, and `Wrote` says which they are.
fn put_number(out: &mut [u8], n: u64) -> usize
    requires { length (decimal n) ≤ length out.old }
    ensures { Wrote (decimal n) out.old result out.new }
{
    let count = digit_count(n);
    let mut rest = n;
    for at in (1..count).rev() {
        out[at] = b'0' + (rest % 10) as u8;
        rest /= 10;
    }
    out[0] = b'0' + rest as u8;
    count
}
