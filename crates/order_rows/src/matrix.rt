// Rows one after another.
ghost use Rattle.std.specs.Prelude.{◌≡◌, not, ℕ, ◌+◌, ◌*◌, ◌<◌, ◌≤◌, length};
ghost use Rattle.theory.specs.Logic.Bools.{◌&◌, ◌or◌};
ghost use Rattle.theory.specs.Logic.Range.{any_below};
ghost use Rattle.words.specs.Word.{word_bits, digit};
ghost use Rattle.words.specs.Words.{has};
ghost use Rattle.order_rows.specs.Bits.{row_bits, RowIs, row_words, cell, InRows, Put, Added, united_rows, apart};

use crate::row::{Row, WORDS, either, is_some, meets, without};
use std::array;

// Row v.
pub fn row(words: &[u64], v: usize) -> Row
    requires { InRows words.now v }
    ensures { RowIs result (cell words.now v) }
{
    let at = v * WORDS;
    array::from_fn(|k| words[at + k])
}

// Puts r into row v, word by word: `copy_from_slice` here also tests at run time whether the two overlap.
pub fn put(words: &mut [u64], v: usize, r: Row)
    requires { InRows words.old v }
    ensures { Put words.old words.new v r }
{
    let at = v * WORDS;
    for k in 0..WORDS {
        words[at + k] = r[k];
    }
}

// Whether x is in row v.
pub fn holds(words: &[u64], v: usize, x: usize) -> bool
    requires { InRows words.now v × (x < row_bits) }
    ensures { result ≡ cell words.now v x }
{
    (words[v * WORDS + x / 64] >> (x % 64)) & 1 == 1
}

// Puts x into row v, if `yes`.
pub fn add(words: &mut [u64], v: usize, x: usize, yes: bool)
    requires { InRows words.old v × (x < row_bits) }
    ensures { Added words.old words.new v x yes }
{
    let at = v * WORDS + x / 64;
    words[at] = words::with(words[at], x % 64, yes);
}

// `into` and the rows of a word's bits; its bit 0 is for row `base`.
fn unite_word(words: &[u64], base: usize, which: u64, into: Row) -> Row
    requires { (base + word_bits) * row_words ≤ length words.now }
    ensures { RowIs result (λ x. has into x or any_below word_bits (λ k. digit which k & cell words.now (base + k) x)) }
{
    let mut out = into;
    let mut left = which;
    while left != 0 {
        let more = either(out, row(words, base + words::lowest(left)));
        out = more;
        left = words::rest(left);
    }
    out
}

// The rows base + a for all a in `which`, united.
pub fn unite(words: &[u64], base: usize, which: Row) -> Row
    requires { (base + row_bits) * row_words ≤ length words.now }
    ensures { RowIs result (united_rows words.now base which) }
{
    let mut out = [0u64; WORDS];
    for j in 0..WORDS {
        let more = unite_word(words, base + j * 64, which[j], out);
        out = more;
    }
    out
}

// What is left of `from` without the rows of a word's bits; its bit 0 is for row `base`. It ends early where nothing is left.
fn strip_word(words: &[u64], base: usize, which: u64, from: Row) -> Row
    requires { (base + word_bits) * row_words ≤ length words.now }
    ensures { RowIs result (λ x. has from x & not (any_below word_bits (λ k. digit which k & cell words.now (base + k) x))) }
{
    let mut out = from;
    let mut left = which;
    while left != 0 {
        let less = without(out, row(words, base + words::lowest(left)));
        if !is_some(less) {
            return less;
        }
        out = less;
        left = words::rest(left);
    }
    out
}

// What is left of `from` without the rows of all a in `which`.
pub fn strip(words: &[u64], which: Row, from: Row) -> Row
    requires { row_bits * row_words ≤ length words.now }
    ensures { RowIs result (λ x. has from x & not (united_rows words.now 0 which x)) }
{
    let mut out = from;
    for j in 0..WORDS {
        let less = strip_word(words, j * 64, which[j], out);
        out = less;
    }
    out
}

// The bits of a word whose rows don't meet x; its bit 0 is for row `base`.
pub fn apart_word(words: &[u64], base: usize, which: u64, x: Row) -> u64
    requires { (base + word_bits) * row_words ≤ length words.now }
    ensures { (k : ℕ) → k < word_bits → digit result k ≡ digit which k & apart words.now (base + k) x }
{
    let mut out: u64 = 0;
    let mut left = which;
    while left != 0 {
        let k = words::lowest(left);
        out = words::with(out, k, !meets(row(words, base + k), x));
        left = words::rest(left);
    }
    out
}

// All in `which` whose rows don't meet x.
pub fn apart_of(words: &[u64], which: Row, x: Row) -> Row
    requires { row_bits * row_words ≤ length words.now }
    ensures { RowIs result (λ a. has which a & apart words.now a x) }
{
    array::from_fn(|j| apart_word(words, j * 64, which[j], x))
}
