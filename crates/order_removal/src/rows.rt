// Losses are taken out of a relation, and counted.
ghost use Rattle.std.specs.Prelude.{◌<◌, ◌≤◌, length};
ghost use Rattle.theory.specs.Games.Game.{Game};
ghost use Rattle.order_rows.specs.Bits.{row_bits, row_words, cell};
ghost use Rattle.order_losses.specs.Losses.{edge_words, EdgeRows, relation_words};
ghost use Rattle.order_removal.specs.RowRemoval.{FallAsked, RowTaken, TakenTo};

use order_losses::edges::{fall_of, fall_within};
use order_rows::matrix::{put, row, unite};
use order_rows::row::{Row, WORDS, first_from, is_some, size, without};
use table::limits::VERTICES;

// What leaves the controllable predecessors when `out` is taken out of row a and `left` is left, as far as Even's predecessors of a ask for it: for
// what is in their rows. With `few` all of it is worked out, which is less work where `out` has few vertices.
fn asked_fall(edges: &[u64], related: &[u64], out: Row, left: Row, a: usize, few: bool) -> Row
    requires { (edge_words ≤ length edges.now) × (relation_words ≤ length related.now) × (a < row_bits) }
    ensures { (G : Game) → EdgeRows G edges.now → FallAsked G related.now a out left result }
{
    if few {
        return fall_of(edges, out, left);
    }
    let evens = without(row(edges, VERTICES + a), row(edges, 2 * VERTICES));
    if !is_some(evens) {
        return [0u64; WORDS];
    }
    fall_within(edges, unite(related, 0, evens), out, left)
}

// Takes row a of `next` out of `related`, and works out its fall, as far as it is asked for; how many pairs it holds.
fn take_row(
    edges: &[u64],
    next: &[u64],
    related: &mut [u64],
    lost: &mut [u64],
    falls: &mut [u64],
    a: usize,
) -> u32
    requires edge_words_in_bounds { (edge_words ≤ length edges.now) × (relation_words ≤ length next.now) × (a < row_bits) }
    requires relation_words_in_bounds { (relation_words ≤ length related.old) × (relation_words ≤ length lost.old) × (relation_words ≤ length falls.old) }
    ensures { RowTaken edges.now (cell next.now a) a related.old lost.old falls.old result related.new lost.new falls.new }
{
    let out = row(next, a);
    let left = without(row(related, a), out);
    put(related, a, left);
    put(lost, a, out);
    let pairs = size(out);
    put(
        falls,
        a,
        asked_fall(edges, related, out, left, a, pairs <= 2),
    );
    pairs
}

// Takes the rows of `losing` in `next` out of `related`; how many pairs they hold.
pub fn take_all(
    edges: &[u64],
    next: &[u64],
    losing: &[u64],
    related: &mut [u64],
    lost: &mut [u64],
    falls: &mut [u64],
) -> u32
    requires edge_words_in_bounds { (edge_words ≤ length edges.now) × (relation_words ≤ length next.now) × (row_words ≤ length losing.now) }
    requires relation_words_in_bounds { (relation_words ≤ length related.old) × (relation_words ≤ length lost.old) × (relation_words ≤ length falls.old) }
    ensures { TakenTo edges.now next.now losing.now row_bits related.old result related.new lost.new falls.new }
{
    let mut cleared: u32 = 0;
    let mut a = first_from(losing, 0);
    while a < VERTICES {
        cleared += take_row(edges, next, related, lost, falls, a);
        a = first_from(losing, a + 1);
    }
    cleared
}
