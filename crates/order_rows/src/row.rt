// A row: a set of numbers below the limit of vertices, in words of 64 bits.
ghost use Rattle.std.specs.Prelude.{◌≡◌, not, ◌+◌, ◌≤◌, min, length};
ghost use Rattle.theory.specs.Logic.Bools.{◌&◌, ◌or◌};
ghost use Rattle.theory.specs.Logic.Range.{any_below, count, first};
ghost use Rattle.words.specs.Word.{word_bits};
ghost use Rattle.words.specs.Words.{has};
ghost use Rattle.order_rows.specs.Bits.{row_bits, row_words, RowIs};

use std::array;
use table::limits::VERTICES;

pub const WORDS: usize = VERTICES / 64;

pub type Row = [u64; WORDS];

// The end of the numbers of a row's word that starts at `base`, and at most n.
pub fn end_of(base: usize, n: usize) -> usize
    requires { base ≤ row_bits }
    ensures { result ≡ min n (base + word_bits) }
{
    n.min(base + 64)
}

// What is in either.
pub fn either(a: Row, b: Row) -> Row
    ensures { RowIs result (λ x. has a x or has b x) }
{
    array::from_fn(|k| a[k] | b[k])
}

// What is in both.
pub fn common(a: Row, b: Row) -> Row
    ensures { RowIs result (λ x. has a x & has b x) }
{
    array::from_fn(|k| a[k] & b[k])
}

// What is in a and not in b.
pub fn without(a: Row, b: Row) -> Row
    ensures { RowIs result (λ x. has a x & not (has b x)) }
{
    array::from_fn(|k| a[k] ^ (a[k] & b[k]))
}

// Whether there is something in it.
pub fn is_some(a: Row) -> bool
    ensures { result ≡ any_below row_bits (has a) }
{
    let mut all: u64 = 0;
    for word in &a {
        all |= *word;
    }
    words::is_some(all)
}

// Whether something is in both.
pub fn meets(a: Row, b: Row) -> bool
    ensures { result ≡ any_below row_bits (λ x. has a x & has b x) }
{
    is_some(common(a, b))
}

// How many numbers are in it.
pub fn size(a: Row) -> u32
    ensures { result ≡ count row_bits (has a) }
{
    let mut total: u32 = 0;
    for word in &a {
        total += words::size(*word);
    }
    total
}

// The first number from k on; the limit where there is none. The row is lent, since callers go through it.
pub fn first_from(a: &[u64], k: usize) -> usize
    requires { (row_words ≤ length a.now) × (k ≤ row_bits) }
    ensures { result ≡ first (has a.now) k row_bits }
{
    let mut at = k;
    while at < VERTICES {
        let j = at / 64;
        let bit = words::first_from(a[j], at % 64);
        if bit < 64 {
            return j * 64 + bit;
        }
        at = (j + 1) * 64;
    }
    at
}
