// Vertices by their words in a table.
ghost use Rattle.std.specs.Prelude.{◌≡◌, ℕ, ◌+◌, ◌<◌, ◌≤◌, length};
ghost use Rattle.words.specs.Word.{word_bits, digit};
ghost use Rattle.order_rows.specs.Bits.{row_bits, RowIs};
ghost use Rattle.order_sets.specs.Losses.{differs};

use order_rows::row::{Row, end_of};
use std::array;

// Those of 64 vertices from `base` on, below n, whose word from `from` on isn't the value.
pub fn differing_word(words: &[u16], from: usize, n: usize, value: u16, base: usize) -> u64
    requires { (from + n ≤ length words.now) × (base ≤ row_bits) }
    ensures { (k : ℕ) → k < word_bits → digit result k ≡ differs words.now from n value (base + k) }
{
    let end = end_of(base, n);
    let mut out: u64 = 0;
    for w in base..end {
        let found = words[from + w];
        out = words::with(out, w - base, found != value);
    }
    out
}

// The vertices below n whose word from `from` on isn't the value.
pub fn differing(words: &[u16], from: usize, n: usize, value: u16) -> Row
    requires { from + n ≤ length words.now }
    ensures { RowIs result (differs words.now from n value) }
{
    array::from_fn(|j| differing_word(words, from, n, value, j * 64))
}
