// The words and labels of memory, made of the bytes that were given.
ghost use Rattle.std.specs.Prelude.{◌≡◌, ◌++◌, ◌+◌, ◌*◌, ◌<◌, ◌≤◌, length, drop};
ghost use Rattle.model.specs.Numbers.{word_bytes};
ghost use Rattle.model.specs.HexLoad.{byte_at, word_at, word_label, firsts};
ghost use Rattle.hexloader.specs.Inner.Places.{numbers_of};

use crate::WORD_BYTES;
use labels::{Bits, Label};

// The byte given to a place, or 0.
fn byte_in(places: &[Option<u8>], at: usize) -> u8
    requires { at < length places.now }
    ensures { result ≡ byte_at (numbers_of places.now) at }
{
    places[at].unwrap_or(0)
}

// The word at address k: its four bytes, the lowest first.
fn word_at(places: &[Option<u8>], k: usize) -> u32
    requires { word_bytes * (k + 1) ≤ length places.now }
    ensures { result ≡ word_at (numbers_of places.now) k }
{
    let at = WORD_BYTES * k;
    u32::from_le_bytes([
        byte_in(places, at),
        byte_in(places, at + 1),
        byte_in(places, at + 2),
        byte_in(places, at + 3),
    ])
}

// The label of the word at address k: the one given, where the word has a byte.
fn label_at(places: &[Option<u8>], label: Bits, k: usize) -> Bits
    requires { word_bytes * (k + 1) ≤ length places.now }
    ensures { result ≡ word_label label (numbers_of places.now) k }
{
    let at = WORD_BYTES * k;
    let given = places[at..at + WORD_BYTES]
        .iter()
        .any(|place| place.is_some());
    if given { label } else { Label::LOWEST.0 }
}

// The words below the size, and their labels.
pub(in crate) fn put_words(
    places: &[Option<u8>],
    label: Bits,
    size: usize,
    words: &mut [u32],
    labels: &mut [Bits],
)
    requires bytes_in_bounds { word_bytes * size ≤ length places.now }
    requires size_in_bounds { (size ≤ length words.old) × (size ≤ length labels.old) }
    ensures words { words.new ≡ firsts size (word_at (numbers_of places.now)) ++ drop size words.old }
    ensures labels { labels.new ≡ firsts size (word_label label (numbers_of places.now)) ++ drop size labels.old }
{
    for k in 0..size {
        words[k] = word_at(places, k);
        labels[k] = label_at(places, label, k);
    }
}
