// Passes of the order, or of the governed bisimulation, as rounds over rows of bits: from the rows that lost something in the round before to
// what they can lose now. Parts of the calls; no host calls these.
#![tactic(auto)]

pub mod start;

ghost use Rattle.std.specs.Prelude.{◌≤◌, length};
ghost use Rattle.table.specs.Table.{game_of};
ghost use Rattle.table.specs.WellFormed.{WellFormed};
ghost use Rattle.order_rows.specs.Bits.{row_words};
ghost use Rattle.order_losses.specs.Losses.{edge_words, EdgeRows};
ghost use Rattle.order_rounds.specs.Rounds.{RowsFit, Begun, RoundDone, Settled};

use order_losses::losses::lose_all;
use order_removal::reverses::complete;
use order_removal::rows::take_all;
use order_rows::matrix::{put, row, unite};
use order_rows::row::WORDS;
use start::begin;
use table::limits::VERTICES;

// A round: what fails is taken out, and with `mirror` its reverse; how many pairs that is. `changed` holds the rows that the round before changed,
// and then those of this one.
pub fn round(
    edges: &[u64],
    related: &mut [u64],
    lost: &mut [u64],
    falls: &mut [u64],
    next: &mut [u64],
    changed: &mut [u64],
    mirror: bool,
) -> u32
    requires edge_words_in_bounds { (edge_words ≤ length edges.now) × (row_words ≤ length changed.old) }
    requires rows_fit { RowsFit related.old lost.old falls.old next.old }
    ensures { RoundDone mirror edges.now related.old lost.old falls.old changed.old result related.new lost.new falls.new changed.new }
{
    let before = row(changed, 0);
    let near = unite(edges, VERTICES, before);
    put(changed, 0, [0u64; WORDS]);
    lose_all(edges, related, lost, falls, before, &near, next, changed);
    complete(next, changed, mirror);
    take_all(edges, next, changed, related, lost, falls)
}

// The rounds after pass 0; how many passes they are. The last takes nothing out.
fn settle(
    game: &[u16],
    edges: &[u64],
    related: &mut [u64],
    lost: &mut [u64],
    falls: &mut [u64],
    next: &mut [u64],
    changed: &mut [u64],
    mirror: bool,
) -> u32
    requires well_formed { WellFormed game.now }
    requires edge_rows { EdgeRows (game_of game.now) edges.now × (edge_words ≤ length edges.now) }
    requires rows_fit { RowsFit related.old lost.old falls.old next.old × (row_words ≤ length changed.old) }
    requires begun { Begun (game_of game.now) related.old lost.old falls.old changed.old }
    ensures { Settled mirror (game_of game.now) result related.new }
{
    let mut passes: u32 = 0;
    loop {
        passes += 1;
        if round(edges, related, lost, falls, next, changed, mirror) == 0 {
            return passes;
        }
    }
}

// Makes the rounds of the order or, with `mirror`, of the governed bisimulation; how many passes they are, pass 0 not counted.
pub fn rounds(
    game: &[u16],
    edges: &[u64],
    related: &mut [u64],
    lost: &mut [u64],
    falls: &mut [u64],
    next: &mut [u64],
    mirror: bool,
) -> u32
    requires well_formed { WellFormed game.now }
    requires edge_rows { EdgeRows (game_of game.now) edges.now × (edge_words ≤ length edges.now) }
    requires rows_fit { RowsFit related.old lost.old falls.old next.old }
    ensures { Settled mirror (game_of game.now) result related.new }
{
    let mut changed = [0u64; WORDS];
    begin(game, edges, related, lost, falls, &mut changed);
    settle(
        game,
        edges,
        related,
        lost,
        falls,
        next,
        &mut changed,
        mirror,
    )
}
