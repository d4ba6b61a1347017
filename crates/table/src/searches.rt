// Parts of the reader, `read`: the searches for its refusals 5, 6 and 8, and the count of different edges. No host calls them.
ghost use Rattle.std.specs.Prelude.{◌≡◌, ◌+◌, ◌*◌, ◌<◌, ◌≤◌, length};
ghost use Rattle.theory.specs.Logic.Bools.{bit};
ghost use Rattle.theory.specs.Logic.Range.{first, tabulate};
ghost use Rattle.theory.specs.Games.Game.{edge_count};
ghost use Rattle.table.specs.Limits.{vertex_limit};
ghost use Rattle.table.specs.Table.{vertex_count, game_of};
ghost use Rattle.table.specs.Reading.{first_owner, first_end, first_lacking, lacks_edge};
ghost use Rattle.table.specs.Flags.{at_least, Sized, EndsInside, Filled};

use crate::flags::flag_edges;
use crate::limits::{PAIR_WORDS, VERTICES};
use crate::slices;

// The first word from `from` on, below `end`, that is `limit` or more; `end` where there is none. The highest word tells whether there is one:
// it is found several words at a time.
fn first_at_least(words: &[u16], limit: usize, from: usize, end: usize) -> usize
    requires { (from ≤ end) × (end ≤ length words.now) }
    ensures { result ≡ first (at_least words.now limit) from end }
{
    if (slices::highest(words, from, end - from) as usize) < limit {
        return end;
    }
    for k in from..end {
        if limit <= usize::from(words[k]) {
            return k;
        }
    }
    end
}

// 5: the first word of an owner above 1.
pub fn first_owner(game: &[u16], n: usize) -> usize
    requires { (n ≡ vertex_count game.now) × (n ≤ vertex_limit) × (2 + 2 * n ≤ length game.now) }
    ensures { result ≡ first_owner game.now }
{
    first_at_least(game, 2, 2 + n, 2 + 2 * n)
}

// 6: the first word of an edge end not below n; sources stand before targets.
pub fn first_end(game: &[u16], n: usize, m: usize) -> usize
    requires { Sized game.now n m }
    ensures { result ≡ first_end game.now }
{
    first_at_least(game, n, 2 + 2 * n, 2 + 2 * n + 2 * m)
}

// How many different edges there are.
pub fn count_different(game: &[u16], n: usize, m: usize) -> usize
    requires { Sized game.now n m × EndsInside game.now }
    ensures { result ≡ edge_count (game_of game.now) }
{
    let mut flags = [0u64; PAIR_WORDS];
    flag_edges(game, n, m, &mut flags)
}

// 8: the lowest vertex without an edge out.
pub fn first_lacking(game: &[u16], n: usize, m: usize) -> usize
    requires { Sized game.now n m × EndsInside game.now }
    ensures { result ≡ first_lacking game.now }
{
    let mut lacking = [1u16; VERTICES];
    clear_sources(game, n, m, &mut lacking);
    first_at_least(&lacking, 1, 0, n)
}

// Leaves a 1 at the vertices without an edge out.
fn clear_sources(game: &[u16], n: usize, m: usize, lacking: &mut [u16])
    requires sized { Sized game.now n m × EndsInside game.now }
    requires n_in_bounds { (n ≤ length lacking.old) × Filled 1 lacking.old }
    ensures { lacking.new ≡ tabulate (length lacking.old) (λ v. bit (lacks_edge game.now v)) }
{
    for j in 0..m {
        lacking[usize::from(game[2 + 2 * n + j])] = 0;
    }
}
