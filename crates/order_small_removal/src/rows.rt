// Losses are taken out of a relation, and counted.
ghost use Rattle.std.specs.Prelude.{◌<◌, ◌≤◌, length};
ghost use Rattle.words.specs.Word.{word_bits, digit};
ghost use Rattle.order_sets.specs.Removal.{TakenRow, TakenIn};
ghost use Rattle.order_small_losses.specs.Words.{bit, small_edges};

use order_small_losses::edges::{SMALL, fall_within};
use order_small_losses::sets::{unite, without};

// Takes word a of `next` out of `related`, and works out its fall, as far as Even's predecessors of a ask for it; how many pairs it holds.
fn take_row(
    edges: &[u64],
    next: &[u64],
    related: &mut [u64],
    lost: &mut [u64],
    falls: &mut [u64],
    a: usize,
) -> u32
    requires small_edges_in_bounds { (small_edges ≤ length edges.now) × (word_bits ≤ length next.now) × (a < word_bits) }
    requires word_bits_in_bounds { (word_bits ≤ length related.old) × (word_bits ≤ length lost.old) × (word_bits ≤ length falls.old) }
    ensures { TakenRow word_bits (bit edges.now) (bit next.now a) a (bit related.old) (bit lost.old) (bit falls.old) result (bit related.new)
        (bit lost.new) (bit falls.new) }
{
    let out = next[a];
    let left = without(related[a], out);
    related[a] = left;
    lost[a] = out;
    let asking = unite(related, 0, without(edges[SMALL + a], edges[2 * SMALL]));
    falls[a] = fall_within(edges, asking, out, left);
    words::size(out)
}

// Takes the words of `losing` in `next` out of `related`; how many pairs they hold.
pub fn take_all(
    edges: &[u64],
    next: &[u64],
    losing: u64,
    related: &mut [u64],
    lost: &mut [u64],
    falls: &mut [u64],
) -> u32
    requires small_edges_in_bounds { (small_edges ≤ length edges.now) × (word_bits ≤ length next.now) }
    requires word_bits_in_bounds { (word_bits ≤ length related.old) × (word_bits ≤ length lost.old) × (word_bits ≤ length falls.old) }
    ensures { TakenIn word_bits (bit edges.now) (bit next.now) (digit losing) word_bits (bit related.old) result (bit related.new) (bit lost.new)
        (bit falls.new) }
{
    let mut cleared: u32 = 0;
    let mut a = words::first_from(losing, 0);
    while a < 64 {
        cleared += take_row(edges, next, related, lost, falls, a);
        a = words::first_from(losing, a + 1);
    }
    cleared
}
