// What each vertex loses in a round.
ghost use Rattle.std.specs.Prelude.{◌≡◌, false, ℕ, ◌+◌, ◌*◌, ◌<◌, ◌≤◌, length};
ghost use Rattle.theory.specs.Games.Game.{Game};
ghost use Rattle.theory.specs.Order.Rows.{loses};
ghost use Rattle.words.specs.Word.{word_bits};
ghost use Rattle.words.specs.Words.{has};
ghost use Rattle.order_sets.specs.Losses.{odd_loss};
ghost use Rattle.order_rows.specs.Bits.{row_bits, row_words, RowIs, cell};
ghost use Rattle.order_losses.specs.Losses.{edge_words, EdgeRows, relation_words, struck, Fell, LossesTo};

use crate::edges::fall_within;
use order_rows::matrix::{add, holds, put, row, strip, unite};
use order_rows::row::{Row, WORDS, common, is_some};
use table::limits::VERTICES;

// What an Odd vertex v loses, where `gone` is what the rows of its successors lost. It ends early where other successors still have all of it.
fn lose_odd(edges: &[u64], related: &[u64], gone: Row, v: usize) -> Row
    requires { (edge_words ≤ length edges.now) × (relation_words ≤ length related.now) × (v < row_bits) }
    ensures { (G : Game) → EdgeRows G edges.now → RowIs result (odd_loss G (cell related.now) (has gone) v) }
{
    let next = row(edges, v);
    let less = strip(related, next, gone);
    if !is_some(less) {
        return [0u64; WORDS];
    }
    let left = unite(related, 0, next);
    fall_within(edges, row(related, v), less, left)
}

// What v loses.
fn lose(edges: &[u64], related: &[u64], lost: &[u64], falls: &[u64], changed: Row, v: usize) -> Row
    requires { (edge_words ≤ length edges.now) × (relation_words ≤ length related.now) × (relation_words ≤ length lost.now)
        × (relation_words ≤ length falls.now) × (v < row_bits) }
    ensures { (G : Game) → EdgeRows G edges.now → v < G.n → Fell G related.now lost.now falls.now changed
        → RowIs result (loses G (cell related.now) (struck changed lost.now) v) }
{
    let which = common(row(edges, v), changed);
    if holds(edges, 2 * VERTICES, v) {
        return lose_odd(edges, related, unite(lost, 0, which), v);
    }
    common(row(related, v), unite(falls, 0, which))
}

// What the vertices of word j of `near` lose, where those of the words before it are done.
fn lose_word(
    edges: &[u64],
    related: &[u64],
    lost: &[u64],
    falls: &[u64],
    changed: Row,
    near: &[u64],
    j: usize,
    next: &mut [u64],
    losing: &mut [u64],
)
    requires edge_words_in_bounds { (edge_words ≤ length edges.now) × (relation_words ≤ length related.now) × (relation_words ≤ length lost.now)
        × (relation_words ≤ length falls.now) }
    requires row_words_in_bounds { (row_words ≤ length near.now) × (relation_words ≤ length next.old) × (row_words ≤ length losing.old) × (j < row_words) }
    requires losses_to { LossesTo edges.now related.now lost.now falls.now changed near.now (j * word_bits) next.old losing.old }
    ensures { LossesTo edges.now related.now lost.now falls.now changed near.now (j * word_bits + word_bits) next.new losing.new }
{
    let mut left = near[j];
    while left != 0 {
        let v = j * 64 + words::lowest(left);
        let out = lose(edges, related, lost, falls, changed, v);
        put(next, v, out);
        add(losing, 0, v, is_some(out));
        left = words::rest(left);
    }
}

// Writes what each vertex of `near` loses into its row of `next`, and those that lose something into `losing`, which is empty.
pub fn lose_all(
    edges: &[u64],
    related: &[u64],
    lost: &[u64],
    falls: &[u64],
    changed: Row,
    near: &[u64],
    next: &mut [u64],
    losing: &mut [u64],
)
    requires edge_words_in_bounds { (edge_words ≤ length edges.now) × (relation_words ≤ length related.now) × (relation_words ≤ length lost.now)
        × (relation_words ≤ length falls.now) }
    requires row_words_in_bounds { (row_words ≤ length near.now) × (relation_words ≤ length next.old) × (row_words ≤ length losing.old) }
    requires by_index { (x : ℕ) → x < row_bits → cell losing.old 0 x ≡ false }
    ensures { LossesTo edges.now related.now lost.now falls.now changed near.now row_bits next.new losing.new }
{
    for j in 0..WORDS {
        lose_word(edges, related, lost, falls, changed, near, j, next, losing);
    }
}
