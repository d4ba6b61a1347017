// Pass 0 as a round: from all pairs, the unequal priorities are taken out. Vertices of one priority lose the same, so that what they lose and its
// fall are worked out at the first of them.
ghost use Rattle.std.proofs.Math.Bool.{So};
ghost use Rattle.std.specs.Prelude.{◌+◌, ◌<◌, ◌≤◌, length};
ghost use Rattle.theory.specs.Games.Game.{Game};
ghost use Rattle.theory.specs.Order.Order.{equal_priority};
ghost use Rattle.table.specs.Table.{vertex_count, game_of};
ghost use Rattle.table.specs.WellFormed.{WellFormed};
ghost use Rattle.words.specs.Word.{word_bits, digit};
ghost use Rattle.order_sets.specs.Losses.{EdgeSets};
ghost use Rattle.order_sets.specs.Rounds.{AllIn, PartedIn, BegunIn};
ghost use Rattle.order_small_losses.specs.Words.{bit, small_edges};

use order_losses::values::differing_word;
use order_rounds::start::first_equal;
use order_small_losses::edges::fall_of_all;
use order_small_losses::sets::without;

// Copies word u into word v, which is the next.
fn copy(related: &mut [u64], lost: &mut [u64], falls: &mut [u64], u: usize, v: usize)
    requires word_bits_in_bounds { (word_bits ≤ length related.old) × (word_bits ≤ length lost.old) × (word_bits ≤ length falls.old) }
    requires u_lt_v { (u < v) × (v < word_bits) }
    ensures { (G : Game) → So (equal_priority G G u v) → PartedIn word_bits G v (bit related.old) (bit lost.old) (bit falls.old)
        → PartedIn word_bits G (v + 1) (bit related.new) (bit lost.new) (bit falls.new) }
{
    related[v] = related[u];
    lost[v] = lost[u];
    falls[v] = falls[u];
}

// Works out word v, which is the next.
fn part(
    game: &[u16],
    edges: &[u64],
    related: &mut [u64],
    lost: &mut [u64],
    falls: &mut [u64],
    all: u64,
    v: usize,
)
    requires well_formed { WellFormed game.now × (v < vertex_count game.now) × AllIn word_bits (game_of game.now) (digit all) }
    requires small_edges_in_bounds { (small_edges ≤ length edges.now) × EdgeSets word_bits (game_of game.now) (bit edges.now) }
    requires word_bits_in_bounds { (word_bits ≤ length related.old) × (word_bits ≤ length lost.old) × (word_bits ≤ length falls.old) }
    requires parted_in { PartedIn word_bits (game_of game.now) v (bit related.old) (bit lost.old) (bit falls.old) }
    ensures { PartedIn word_bits (game_of game.now) (v + 1) (bit related.new) (bit lost.new) (bit falls.new) }
{
    let n = game[0] as usize;
    let out = differing_word(game, 2, n, game[2 + v], 0);
    let left = without(all, out);
    related[v] = left;
    lost[v] = out;
    falls[v] = fall_of_all(edges, out, left);
}

// Word v, which is the next: as that of an earlier vertex of its priority, if there is one.
fn start_row(
    game: &[u16],
    edges: &[u64],
    related: &mut [u64],
    lost: &mut [u64],
    falls: &mut [u64],
    all: u64,
    v: usize,
)
    requires well_formed { WellFormed game.now × (v < vertex_count game.now) × AllIn word_bits (game_of game.now) (digit all) }
    requires small_edges_in_bounds { (small_edges ≤ length edges.now) × EdgeSets word_bits (game_of game.now) (bit edges.now) }
    requires word_bits_in_bounds { (word_bits ≤ length related.old) × (word_bits ≤ length lost.old) × (word_bits ≤ length falls.old) }
    requires parted_in { PartedIn word_bits (game_of game.now) v (bit related.old) (bit lost.old) (bit falls.old) }
    ensures { PartedIn word_bits (game_of game.now) (v + 1) (bit related.new) (bit lost.new) (bit falls.new) }
{
    let u = first_equal(game, v);
    if u < v {
        copy(related, lost, falls, u, v);
    } else {
        part(game, edges, related, lost, falls, all, v);
    }
}

// Pass 0; the rows that changed.
pub fn begin(
    game: &[u16],
    edges: &[u64],
    related: &mut [u64],
    lost: &mut [u64],
    falls: &mut [u64],
) -> u64
    requires well_formed { WellFormed game.now × (small_edges ≤ length edges.now) × EdgeSets word_bits (game_of game.now) (bit edges.now) }
    requires word_bits_in_bounds { (word_bits ≤ length related.old) × (word_bits ≤ length lost.old) × (word_bits ≤ length falls.old) }
    ensures { BegunIn word_bits (game_of game.now) (bit related.new) (bit lost.new) (bit falls.new) (digit result) }
{
    let n = game[0] as usize;
    // No vertex has owner 2.
    let all = differing_word(game, 2 + n, n, 2, 0);
    let mut changed: u64 = 0;
    for v in 0..n {
        start_row(game, edges, related, lost, falls, all, v);
        changed = words::with(changed, v, words::is_some(lost[v]));
    }
    changed
}
