// Pass 0 as a round: from all pairs, the unequal priorities are taken out. Vertices of one priority lose the same, so that what they lose and its
// fall are worked out at the first of them.
ghost use Rattle.std.specs.Prelude.{◌≡◌, false, ℕ, ◌+◌, ◌<◌, ◌≤◌, length};
ghost use Rattle.std.proofs.Math.Bool.{So};
ghost use Rattle.theory.specs.Logic.Range.{first};
ghost use Rattle.theory.specs.Games.Game.{Game};
ghost use Rattle.theory.specs.Order.Order.{equal_priority};
ghost use Rattle.table.specs.Table.{vertex_count, game_of};
ghost use Rattle.table.specs.WellFormed.{WellFormed};
ghost use Rattle.order_rows.specs.Bits.{row_bits, row_words, cell};
ghost use Rattle.order_losses.specs.Losses.{edge_words, EdgeRows, relation_words};
ghost use Rattle.order_rounds.specs.Rounds.{AllVertices, Parted, Begun};

use order_losses::edges::fall_of_all;
use order_losses::values::differing;
use order_rows::matrix::{add, put, row};
use order_rows::row::{Row, is_some, without};

// The first vertex before v of v's priority; v where there is none.
pub fn first_equal(game: &[u16], v: usize) -> usize
    requires { WellFormed game.now × (v < vertex_count game.now) }
    ensures { result ≡ first (λ u. equal_priority (game_of game.now) (game_of game.now) u v) 0 v }
{
    let priority = game[2 + v];
    for u in 0..v {
        if game[2 + u] == priority {
            return u;
        }
    }
    v
}

// Copies row u into row v, which is the next.
fn copy(related: &mut [u64], lost: &mut [u64], falls: &mut [u64], u: usize, v: usize)
    requires relation_words_in_bounds { (relation_words ≤ length related.old) × (relation_words ≤ length lost.old) × (relation_words ≤ length falls.old) }
    requires u_lt_v { (u < v) × (v < row_bits) }
    ensures { (G : Game) → So (equal_priority G G u v) → Parted G v related.old lost.old falls.old
        → Parted G (v + 1) related.new lost.new falls.new }
{
    put(related, v, row(related, u));
    put(lost, v, row(lost, u));
    put(falls, v, row(falls, u));
}

// Works out row v, which is the next.
fn part(
    game: &[u16],
    edges: &[u64],
    related: &mut [u64],
    lost: &mut [u64],
    falls: &mut [u64],
    all: Row,
    v: usize,
)
    requires well_formed { WellFormed game.now × (v < vertex_count game.now) × AllVertices (game_of game.now) all }
    requires edge_rows { EdgeRows (game_of game.now) edges.now × (edge_words ≤ length edges.now) }
    requires relation_words_in_bounds { (relation_words ≤ length related.old) × (relation_words ≤ length lost.old) × (relation_words ≤ length falls.old) }
    requires parted { Parted (game_of game.now) v related.old lost.old falls.old }
    ensures { Parted (game_of game.now) (v + 1) related.new lost.new falls.new }
{
    let n = game[0] as usize;
    let out = differing(game, 2, n, game[2 + v]);
    let left = without(all, out);
    put(related, v, left);
    put(lost, v, out);
    put(falls, v, fall_of_all(edges, out, left));
}

// Row v, which is the next: as that of an earlier vertex of its priority, if there is one.
fn start_row(
    game: &[u16],
    edges: &[u64],
    related: &mut [u64],
    lost: &mut [u64],
    falls: &mut [u64],
    all: Row,
    v: usize,
)
    requires well_formed { WellFormed game.now × (v < vertex_count game.now) × AllVertices (game_of game.now) all }
    requires edge_rows { EdgeRows (game_of game.now) edges.now × (edge_words ≤ length edges.now) }
    requires relation_words_in_bounds { (relation_words ≤ length related.old) × (relation_words ≤ length lost.old) × (relation_words ≤ length falls.old) }
    requires parted { Parted (game_of game.now) v related.old lost.old falls.old }
    ensures { Parted (game_of game.now) (v + 1) related.new lost.new falls.new }
{
    let u = first_equal(game, v);
    if u < v {
        copy(related, lost, falls, u, v);
    } else {
        part(game, edges, related, lost, falls, all, v);
    }
}

// Pass 0; the rows that changed go into `changed`, which is empty.
pub fn begin(
    game: &[u16],
    edges: &[u64],
    related: &mut [u64],
    lost: &mut [u64],
    falls: &mut [u64],
    changed: &mut [u64],
)
    requires well_formed { WellFormed game.now }
    requires edge_rows { EdgeRows (game_of game.now) edges.now × (edge_words ≤ length edges.now) }
    requires relation_words_in_bounds { (relation_words ≤ length related.old) × (relation_words ≤ length lost.old) × (relation_words ≤ length falls.old) }
    requires row_words_in_bounds { row_words ≤ length changed.old }
    requires by_index { (x : ℕ) → x < row_bits → cell changed.old 0 x ≡ false }
    ensures { Begun (game_of game.now) related.new lost.new falls.new changed.new }
{
    let n = game[0] as usize;
    // No vertex has owner 2.
    let all = differing(game, 2 + n, n, 2);
    for v in 0..n {
        start_row(game, edges, related, lost, falls, all, v);
        add(changed, 0, v, is_some(row(lost, v)));
    }
}
