// The edges of a game in rows of one word: word v holds the successors of v, word SMALL + v its predecessors, and the last word Odd's vertices.
ghost use Rattle.std.specs.Prelude.{◌≡◌, false, ℕ, ◌≤◌, length};
ghost use Rattle.theory.specs.Logic.Bools.{◌&◌};
ghost use Rattle.theory.specs.Games.Game.{Game, Total};
ghost use Rattle.theory.specs.Order.Order.{any_next};
ghost use Rattle.theory.specs.Order.Rows.{fall};
ghost use Rattle.table.specs.Table.{vertex_count, table_edges, game_of};
ghost use Rattle.table.specs.WellFormed.{WellFormed};
ghost use Rattle.words.specs.Word.{word_bits, digit};
ghost use Rattle.order_sets.specs.Sets.{Is};
ghost use Rattle.order_sets.specs.Losses.{EdgeSets, EdgesIn, falling_in, Whole};
ghost use Rattle.order_small_losses.specs.Words.{bit, small_edges};

use crate::sets::{apart_of, unite, without};
use order_losses::values::differing_word;

pub const SMALL: usize = 64;

pub const EDGE_WORDS: usize = 2 * SMALL + 1;

// Writes the edges into zeroed words, both ways.
fn add_edges(game: &[u16], edges: &mut [u64])
    requires well_formed { WellFormed game.now × (vertex_count game.now ≤ word_bits) }
    requires small_edges_in_bounds { small_edges ≤ length edges.old }
    requires by_index { (v x : ℕ) → bit edges.old v x ≡ false }
    ensures { EdgesIn word_bits game.now (table_edges game.now) (bit edges.new) }
{
    let n = game[0] as usize;
    let m = game[1] as usize;
    let sources = 2 + 2 * n;
    let targets = sources + m;
    for j in 0..m {
        let v = usize::from(game[sources + j]);
        let x = usize::from(game[targets + j]);
        edges[v] = words::with(edges[v], x, true);
        edges[SMALL + x] = words::with(edges[SMALL + x], v, true);
    }
}

// Writes the rows of the game's edges into zeroed words.
pub fn fill(game: &[u16], edges: &mut [u64])
    requires well_formed { WellFormed game.now × (vertex_count game.now ≤ word_bits) }
    requires small_edges_in_bounds { small_edges ≤ length edges.old }
    requires by_index { (v x : ℕ) → bit edges.old v x ≡ false }
    ensures { EdgeSets word_bits (game_of game.now) (bit edges.new) }
{
    add_edges(game, edges);
    let n = game[0] as usize;
    edges[2 * SMALL] = differing_word(game, 2 + n, n, 0, 0);
}

// Of `near` those of a player's, and those of the other's without a successor in x.
fn falling(edges: &[u64], near: u64, player: u64, x: u64) -> u64
    requires { small_edges ≤ length edges.now }
    ensures { Is word_bits (digit result) (falling_in word_bits (bit edges.now) (digit near) (digit player) (digit x)) }
{
    (near & player) | apart_of(edges, without(near, player), x)
}

// The vertices of `mask` with a successor in l; the smaller of the two is gone through.
fn near_within(edges: &[u64], mask: u64, l: u64) -> u64
    requires { small_edges ≤ length edges.now }
    ensures { (G : Game) → EdgeSets word_bits G (bit edges.now) → Is word_bits (digit result) (λ w. digit mask w & any_next G w (digit l)) }
{
    if words::size(mask) < words::size(l) {
        return without(mask, apart_of(edges, mask, l));
    }
    mask & unite(edges, SMALL, l)
}

// What leaves the controllable predecessors when l is taken out and x is left, of `mask`: of the vertices with a successor in l those of Odd's, and
// those of Even's without a successor in x.
pub fn fall_within(edges: &[u64], mask: u64, l: u64, x: u64) -> u64
    requires { small_edges ≤ length edges.now }
    ensures { (G : Game) → EdgeSets word_bits G (bit edges.now) → Is word_bits (digit result) (λ w. digit mask w & fall G (digit l) (digit x) w) }
{
    falling(edges, near_within(edges, mask, l), edges[2 * SMALL], x)
}

// The same of all vertices, where l and x together are all vertices and each has an edge. What stays is in the controllable predecessors of x: of the
// vertices with a successor in x those of Even's, and those of Odd's without a successor in l.
pub fn fall_of_all(edges: &[u64], l: u64, x: u64) -> u64
    requires { small_edges ≤ length edges.now }
    ensures { (G : Game) → EdgeSets word_bits G (bit edges.now) → Total G → Whole word_bits G (digit l) (digit x)
        → Is word_bits (digit result) (fall G (digit l) (digit x)) }
{
    let all = l | x;
    let odd = edges[2 * SMALL];
    if words::size(l) < words::size(x) {
        return falling(edges, unite(edges, SMALL, l), odd, x);
    }
    without(
        all,
        falling(edges, unite(edges, SMALL, x), without(all, odd), l),
    )
}
