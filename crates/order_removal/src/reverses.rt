// The reverse of every loss is a loss too, where the round is of the governed bisimulation. A row of `next` that isn't in `losing` holds no loss,
// whatever its words are.
ghost use Rattle.std.specs.Prelude.{◌+◌, ◌<◌, ◌≤◌, length};
ghost use Rattle.words.specs.Word.{word_bits};
ghost use Rattle.order_sets.specs.Reverses.{one_pair, word_pairs};
ghost use Rattle.order_rows.specs.Bits.{row_bits, row_words};
ghost use Rattle.order_losses.specs.Losses.{relation_words};
ghost use Rattle.order_removal.specs.ReverseLosses.{LosesToo, column_pairs, Completed};

use order_rows::matrix::{add, holds, put, row};
use order_rows::row::{Row, WORDS, first_from};
use table::limits::VERTICES;

// One loss more: the pair (w, v).
fn lose_pair(next: &mut [u64], losing: &mut [u64], w: usize, v: usize)
    requires { (relation_words ≤ length next.old) × (row_words ≤ length losing.old) × (w < row_bits) × (v < row_bits) }
    ensures { LosesToo (one_pair w v) next.old losing.old next.new losing.new }
{
    if holds(losing, 0, w) {
        add(next, w, v, true);
        return;
    }
    put(next, w, [0u64; WORDS]);
    add(next, w, v, true);
    add(losing, 0, w, true);
}

// The pairs of a word's bits with v; its bit 0 is for row `base`.
fn lose_word(next: &mut [u64], losing: &mut [u64], base: usize, which: u64, v: usize)
    requires { (relation_words ≤ length next.old) × (row_words ≤ length losing.old) × (base + word_bits ≤ row_bits) × (v < row_bits) }
    ensures { LosesToo (word_pairs base which v) next.old losing.old next.new losing.new }
{
    let mut left = which;
    while left != 0 {
        lose_pair(next, losing, base + words::lowest(left), v);
        left = words::rest(left);
    }
}

// The pairs of all in `which` with v.
fn lose_column(next: &mut [u64], losing: &mut [u64], which: Row, v: usize)
    requires { (relation_words ≤ length next.old) × (row_words ≤ length losing.old) × (v < row_bits) }
    ensures { LosesToo (column_pairs which v) next.old losing.old next.new losing.new }
{
    for j in 0..WORDS {
        lose_word(next, losing, j * 64, which[j], v);
    }
}

// With `mirror`, the reverse of every loss.
pub fn complete(next: &mut [u64], losing: &mut [u64], mirror: bool)
    requires { (relation_words ≤ length next.old) × (row_words ≤ length losing.old) }
    ensures { Completed mirror next.old losing.old next.new losing.new }
{
    if !mirror {
        return;
    }
    let which = row(losing, 0);
    let mut v = first_from(&which, 0);
    while v < VERTICES {
        let lost = row(next, v);
        lose_column(next, losing, lost, v);
        v = first_from(&which, v + 1);
    }
}
