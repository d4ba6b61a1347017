// The rows of a game's edges: row v holds the successors of v, row VERTICES + v its predecessors, and the last row Odd's vertices.
ghost use Rattle.std.specs.Prelude.{◌≡◌, false, ℕ, ◌≤◌, length};
ghost use Rattle.theory.specs.Logic.Bools.{◌&◌};
ghost use Rattle.theory.specs.Games.Game.{Game, Total};
ghost use Rattle.theory.specs.Order.Order.{any_next};
ghost use Rattle.theory.specs.Order.Rows.{fall};
ghost use Rattle.table.specs.Table.{table_edges, game_of};
ghost use Rattle.table.specs.WellFormed.{WellFormed};
ghost use Rattle.words.specs.Words.{has};
ghost use Rattle.order_rows.specs.Bits.{RowIs, cell};
ghost use Rattle.order_losses.specs.Losses.{edge_words, EdgesTo, EdgeRows, falling_rows, Vertices};

use crate::values::differing;
use order_rows::matrix::{add, apart_of, apart_word, put, row, unite};
use order_rows::row::{Row, WORDS, common, either, size, without};
use table::limits::VERTICES;

pub const EDGE_WORDS: usize = (2 * VERTICES + 1) * WORDS;

// Writes the edges into zeroed rows, both ways.
fn add_edges(game: &[u16], edges: &mut [u64])
    requires well_formed { WellFormed game.now }
    requires edge_words_in_bounds { edge_words ≤ length edges.old }
    requires by_index { (v x : ℕ) → cell edges.old v x ≡ false }
    ensures { EdgesTo game.now (table_edges game.now) edges.new }
{
    let n = game[0] as usize;
    let m = game[1] as usize;
    let sources = 2 + 2 * n;
    let targets = sources + m;
    for j in 0..m {
        let v = game[sources + j] as usize;
        let x = game[targets + j] as usize;
        add(edges, v, x, true);
        add(edges, VERTICES + x, v, true);
    }
}

// Writes the rows of the game's edges into zeroed words.
pub fn fill(game: &[u16], edges: &mut [u64])
    requires well_formed { WellFormed game.now }
    requires edge_words_in_bounds { edge_words ≤ length edges.old }
    requires by_index { (v x : ℕ) → cell edges.old v x ≡ false }
    ensures { EdgeRows (game_of game.now) edges.new }
{
    add_edges(game, edges);
    let n = game[0] as usize;
    put(edges, 2 * VERTICES, differing(game, 2 + n, n, 0));
}

// Of `near` those of a player's, and those of the other's without a successor in x. The row is put together word by word: whole rows, read right after
// their words were stored, keep the processor waiting.
fn falling(edges: &[u64], near: Row, player: Row, x: Row) -> Row
    requires { edge_words ≤ length edges.now }
    ensures { RowIs result (falling_rows edges.now near player x) }
{
    let mut out = [0u64; WORDS];
    for j in 0..WORDS {
        let own = near[j] & player[j];
        let stuck = apart_word(edges, j * 64, near[j] ^ own, x);
        out[j] = own | stuck;
    }
    out
}

// What leaves the controllable predecessors when l is taken out and x is left: of the vertices with a successor in l those of Odd's, and those
// of Even's without a successor in x.
pub fn fall_of(edges: &[u64], l: Row, x: Row) -> Row
    requires { edge_words ≤ length edges.now }
    ensures { (G : Game) → EdgeRows G edges.now → RowIs result (fall G (has l) (has x)) }
{
    let near = unite(edges, VERTICES, l);
    falling(edges, near, row(edges, 2 * VERTICES), x)
}

// The vertices of `mask` with a successor in l; the smaller of the two is gone through.
fn near_within(edges: &[u64], mask: Row, l: Row) -> Row
    requires { edge_words ≤ length edges.now }
    ensures { (G : Game) → EdgeRows G edges.now → RowIs result (λ w. has mask w & any_next G w (has l)) }
{
    if size(mask) < size(l) {
        return without(mask, apart_of(edges, mask, l));
    }
    common(mask, unite(edges, VERTICES, l))
}

// Of `mask`, what `fall_of` gives.
pub fn fall_within(edges: &[u64], mask: Row, l: Row, x: Row) -> Row
    requires { edge_words ≤ length edges.now }
    ensures { (G : Game) → EdgeRows G edges.now → RowIs result (λ w. has mask w & fall G (has l) (has x) w) }
{
    let near = near_within(edges, mask, l);
    falling(edges, near, row(edges, 2 * VERTICES), x)
}

// What `fall_of` gives, where l and x together are all vertices and each has an edge; the smaller of the two is gone through. What stays is in
// the controllable predecessors of x: of the vertices with a successor in x those of Even's, and those of Odd's without a successor in l.
pub fn fall_of_all(edges: &[u64], l: Row, x: Row) -> Row
    requires { edge_words ≤ length edges.now }
    ensures { (G : Game) → EdgeRows G edges.now → Total G → Vertices G l x → RowIs result (fall G (has l) (has x)) }
{
    if size(l) < size(x) {
        return fall_of(edges, l, x);
    }
    let all = either(l, x);
    let near = unite(edges, VERTICES, x);
    let even = without(all, row(edges, 2 * VERTICES));
    without(all, falling(edges, near, even, l))
}
