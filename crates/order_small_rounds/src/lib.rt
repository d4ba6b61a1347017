// Passes of the order, or of the governed bisimulation, as rounds over rows of one word: from the rows that lost something in the round before to
// what they can lose now. Parts of the calls; no host calls these.
#![tactic(auto)]

mod start;

ghost use Rattle.std.specs.Prelude.{◌≤◌, length};
ghost use Rattle.table.specs.Table.{vertex_count, game_of};
ghost use Rattle.table.specs.WellFormed.{WellFormed};
ghost use Rattle.words.specs.Word.{word_bits, digit};
ghost use Rattle.order_sets.specs.Losses.{EdgeSets};
ghost use Rattle.order_sets.specs.Rounds.{BegunIn, RoundDoneIn, SettledIn};
ghost use Rattle.order_small_losses.specs.Words.{bit, small_edges};
ghost use Rattle.order_small_rounds.specs.WordsFit.{WordsFit};

use order_small_losses::edges::SMALL;
use order_small_losses::losses::lose_all;
use order_small_losses::sets::unite;
use order_small_removal::reverses::complete;
use order_small_removal::rows::take_all;
use start::begin;

// What a round took out: the rows that changed, and how many pairs.
#[derive(Clone, Copy)]
struct Taken {
    changed: u64,
    cleared: u32,
}

// A round: what fails is taken out, and with `mirror` its reverse. `changed` holds the rows that the round before changed.
fn round(
    edges: &[u64],
    related: &mut [u64],
    lost: &mut [u64],
    falls: &mut [u64],
    next: &mut [u64],
    changed: u64,
    mirror: bool,
) -> Taken
    requires { (small_edges ≤ length edges.now) × WordsFit related.old lost.old falls.old next.old }
    ensures { RoundDoneIn word_bits mirror (bit edges.now) (bit related.old) (bit lost.old) (bit falls.old) (digit changed) result.cleared
        (bit related.new) (bit lost.new) (bit falls.new) (digit result.changed) }
{
    let near = unite(edges, SMALL, changed);
    let losing = lose_all(edges, related, lost, falls, changed, near, next);
    let losing = complete(next, losing, mirror);
    let cleared = take_all(edges, next, losing, related, lost, falls);
    Taken {
        changed: losing,
        cleared,
    }
}

// The rounds after pass 0, which changed the rows of `first`; how many passes they are. The last takes nothing out.
fn settle(
    game: &[u16],
    edges: &[u64],
    related: &mut [u64],
    lost: &mut [u64],
    falls: &mut [u64],
    next: &mut [u64],
    first: u64,
    mirror: bool,
) -> u32
    requires well_formed { WellFormed game.now × (small_edges ≤ length edges.now) × EdgeSets word_bits (game_of game.now) (bit edges.now) }
    requires words_fit { WordsFit related.old lost.old falls.old next.old }
    requires begun_in { BegunIn word_bits (game_of game.now) (bit related.old) (bit lost.old) (bit falls.old) (digit first) }
    ensures { SettledIn mirror (game_of game.now) result (bit related.new) }
{
    let mut passes: u32 = 0;
    let mut changed = first;
    loop {
        passes += 1;
        let taken = round(edges, related, lost, falls, next, changed, mirror);
        if taken.cleared == 0 {
            return passes;
        }
        changed = taken.changed;
    }
}

// Makes the rounds of the order or, with `mirror`, of the governed bisimulation; how many passes they are, pass 0 not counted.
pub fn rounds(
    game: &[u16],
    edges: &[u64],
    related: &mut [u64],
    lost: &mut [u64],
    falls: &mut [u64],
    next: &mut [u64],
    mirror: bool,
) -> u32
    requires well_formed { WellFormed game.now × (small_edges ≤ length edges.now) × EdgeSets word_bits (game_of game.now) (bit edges.now) }
    requires words_fit { WordsFit related.old lost.old falls.old next.old }
    ensures { SettledIn mirror (game_of game.now) result (bit related.new) }
{
    let first = begin(game, edges, related, lost, falls);
    settle(game, edges, related, lost, falls, next, first, mirror)
}
