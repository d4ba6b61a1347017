// What each vertex loses in a round.
ghost use Rattle.std.specs.Prelude.{◌<◌, ◌≤◌, length};
ghost use Rattle.theory.specs.Games.Game.{Game};
ghost use Rattle.theory.specs.Order.Rows.{loses};
ghost use Rattle.words.specs.Word.{word_bits, digit};
ghost use Rattle.order_sets.specs.Sets.{Is, struck};
ghost use Rattle.order_sets.specs.Losses.{EdgeSets, FellIn, odd_loss, GameLosses};
ghost use Rattle.order_small_losses.specs.Words.{bit, small_edges};

use crate::edges::{SMALL, fall_within};
use crate::sets::{strip, unite};

// What an Odd vertex v loses, where `gone` is what the rows of its successors lost. It ends early where other successors still have all of it.
fn lose_odd(edges: &[u64], related: &[u64], gone: u64, v: usize) -> u64
    requires { (small_edges ≤ length edges.now) × (word_bits ≤ length related.now) × (v < word_bits) }
    ensures { (G : Game) → EdgeSets word_bits G (bit edges.now) → Is word_bits (digit result) (odd_loss G (bit related.now) (digit gone) v) }
{
    let next = edges[v];
    let less = strip(related, next, gone);
    if less == 0 {
        return 0;
    }
    fall_within(edges, related[v], less, unite(related, 0, next))
}

// What v loses.
fn lose(edges: &[u64], related: &[u64], lost: &[u64], falls: &[u64], changed: u64, v: usize) -> u64
    requires { (small_edges ≤ length edges.now) × (word_bits ≤ length related.now) × (word_bits ≤ length lost.now) × (word_bits ≤ length falls.now)
        × (v < word_bits) }
    ensures { (G : Game) → EdgeSets word_bits G (bit edges.now) → v < G.n
        → FellIn word_bits G (bit related.now) (bit lost.now) (bit falls.now) (digit changed)
        → Is word_bits (digit result) (loses G (bit related.now) (struck (digit changed) (bit lost.now)) v) }
{
    let which = edges[v] & changed;
    if (edges[2 * SMALL] >> v) & 1 == 1 {
        return lose_odd(edges, related, unite(lost, 0, which), v);
    }
    related[v] & unite(falls, 0, which)
}

// Writes what each vertex of `near` loses into its word of `next`; those that lose something.
pub fn lose_all(
    edges: &[u64],
    related: &[u64],
    lost: &[u64],
    falls: &[u64],
    changed: u64,
    near: u64,
    next: &mut [u64],
) -> u64
    requires { (small_edges ≤ length edges.now) × (word_bits ≤ length related.now) × (word_bits ≤ length lost.now) × (word_bits ≤ length falls.now)
        × (word_bits ≤ length next.old) }
    ensures { GameLosses word_bits (bit edges.now) (bit related.now) (bit lost.now) (bit falls.now) (digit changed) (digit near) word_bits
        (bit next.new) (digit result) }
{
    let mut losing: u64 = 0;
    let mut left = near;
    while left != 0 {
        let v = words::lowest(left);
        let out = lose(edges, related, lost, falls, changed, v);
        next[v] = out;
        losing = words::with(losing, v, words::is_some(out));
        left = words::rest(left);
    }
    losing
}
