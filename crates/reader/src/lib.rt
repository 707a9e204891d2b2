// Reading a text: the number, the field, some fields in a row and the line that it begins with. Each reader is lent the text
// from its own start on, and answers how many bytes it has read.
#![tactic(auto)]

ghost use Rattle.std.specs.Prelude.{◌≡◌, ◌≤◌, IsTrue, option_map, unwrap_or, length};
ghost use Rattle.std.specs.List.{AllPass};
ghost use Rattle.model.specs.Numbers.{most_digits};
ghost use Rattle.model.specs.Text.{is_digit, digits, decimal_from, well_written, number, field, read_fields, field_count, line_of, malformed, read_line};
ghost use Rattle.reader.specs.Alone.{number_alone};
ghost use Rattle.reader.specs.Inner.Reading.{fields_of};

use model::format::{COMMA, LF, Line, MOST_DIGITS, MOST_FIELDS, Number, Read};

// A line that is malformed.
const MALFORMED: Read = Read {
    line: Line::Malformed,
    next: 0,
};

// ---- a number

// The number that a word is, with nothing behind it, as the programs' arguments are written.
pub fn read_alone(word: &[u8]) -> Option<Number>
    ensures { result ≡ number_alone word.now }
{
    let number = read_number(word)?;
    (word.len() < number.length).then_some(number)
}

// The number that a text begins with: one to ten digits without leading zeros. Of a longer row of digits one more than a
// number may have is looked at, however many follow.
#[tactic(auto, using(crate::proofs::Digits::number_in_front))]
pub fn read_number(text: &[u8]) -> Option<Number>
    ensures { result ≡ number text.now }
{
    number_of(&text[..(MOST_DIGITS + 1).min(text.len())])
}

// The same of a text that is looked at as far as its digits go.
#[tactic(auto, using(crate::proofs::Digits::all_digits, crate::proofs::Digits::few_digits), unfolding(model::specs::Text::number))]
fn number_of(text: &[u8]) -> Option<Number>
    ensures { result ≡ number text.now }
{
    let digits = leading_digits(text);
    if !is_well_written(digits) {
        return None;
    }
    Some(Number {
        value: decimal(digits),
        length: digits.len() + 1,
    })
}

// The digits that a text begins with.
fn leading_digits(text: &[u8]) -> &[u8]
    ensures { result.now ≡ digits text.now }
{
    let count = text.iter().take_while(|byte| byte.is_ascii_digit()).count();
    &text[..count]
}

// Whether these digits are one to ten without a leading zero.
#[tactic(auto, unfolding(model::specs::Text::well_written))]
fn is_well_written(digits: &[u8]) -> bool
    ensures { result ≡ well_written digits.now }
{
    match digits {
        [] => false,
        [_] => true,
        [first, ..] => *first != b'0' && digits.len() <= MOST_DIGITS,
    }
}

// The number that these digits write in base ten.
fn decimal(digits: &[u8]) -> u64
    requires few { length digits.now ≤ most_digits }
    requires all { AllPass is_digit digits.now }
    ensures { result ≡ decimal_from 0 digits.now }
{
    let mut value = 0;
    for digit in digits {
        value = value * 10 + u64::from(*digit - b'0');
    }
    value
}

// ---- fields

// The field that a text begins with: a comma and a number.
#[tactic(auto, using(texts::proofs::Text::field_by_byte))]
fn read_field(text: &[u8]) -> Option<Number>
    ensures { result ≡ field text.now }
{
    match text {
        [COMMA, rest @ ..] => read_number(rest),
        _ => None,
    }
}

// The fields that a text begins with, as many as `numbers` has places: each number goes to its place. Gives how many bytes
// they take.
fn read_fields(text: &[u8], numbers: &mut [u64]) -> Option<usize>
    ensures { fields_of result numbers.new ≡ read_fields (length numbers.old) text.now }
{
    let mut at = 0;
    for number in numbers.iter_mut() {
        let field = read_field(&text[at..])?;
        *number = field.value;
        at += field.length;
    }
    Some(at)
}

// ---- a line

// How many fields a line with this letter has; 0 for a byte that is no letter of a line, as in the definition (`field_count`): a
// line of no fields is then malformed.
#[tactic(auto, unfolding(model::specs::Text::field_count))]
fn field_count(letter: u8) -> usize
    ensures { result ≡ field_count letter }
{
    match letter {
        b'M' => 6,
        b'G' | b'R' | b'W' => 3,
        _ => 0,
    }
}

// The line with this letter and these numbers.
#[tactic(auto, unfolding(model::specs::Text::line_of))]
fn line_of(letter: u8, numbers: [u64; MOST_FIELDS]) -> Line
    ensures { result ≡ line_of letter numbers }
{
    let [a, b, c, d, e, f] = numbers;
    match letter {
        b'M' => Line::M(a, b, c, d, e, f),
        b'G' => Line::G(a, b, c),
        b'R' => Line::R(a, b, c),
        b'W' => Line::W(a, b, c),
        _ => Line::Malformed,
    }
}

// The line that a text begins with: its letter, its fields, and an LF.
pub fn read_line(text: &[u8]) -> Read
    ensures { result ≡ read_line text.now }
{
    whole_line(text).unwrap_or(MALFORMED)
}

// The same; none where a field is bad or no LF ends the line.
fn whole_line(text: &[u8]) -> Option<Read>
    ensures { unwrap_or result malformed ≡ read_line text.now }
{
    let (letter, rest) = text.split_first()?;
    let mut numbers = [0; MOST_FIELDS];
    let end = 1 + read_fields(rest, &mut numbers[..field_count(*letter)])?;
    let line = line_of(*letter, numbers);
    (*text.get(end)? == LF).then_some(Read {
        line,
        next: end + 1,
    })
}
