// The reader of large games: a table of 32-bit words, with as many vertices and edges as these number. Nothing is written, and no memory is
// used but the caller's words.
#![tactic(auto)]

ghost use Rattle.std.specs.Prelude.{◌≡◌, ◌≤◌, length};
ghost use Rattle.theory.specs.Logic.Range.{first};
ghost use Rattle.table.specs.Flags.{at_least};
ghost use Rattle.table.specs.Filling.{filling_answer};
ghost use Rattle.large_table.specs.Reading.{large_answer};

use table::{FilledSizes, Refusal, refused};

// Judges the table of a large game: refusals 1, 2, 4, 5 and 6 in order, each over the whole table before the next.
pub fn read(game: &[u32]) -> Result<FilledSizes, Refusal>
    ensures { filling_answer result ≡ large_answer game.now }
{
    let len = game.len();
    if len < 2 {
        return refused(1, len);
    }
    let n = game[0] as usize;
    let m = game[1] as usize;
    if n == 0 {
        return refused(2, 0);
    }
    if len != 2 + 2 * n + 2 * m {
        return refused(4, len);
    }
    let owner = first_at_least(game, 2, 2 + n, 2 + 2 * n);
    if owner < 2 + 2 * n {
        return refused(5, owner);
    }
    let end = first_at_least(game, n, 2 + 2 * n, len);
    if end < len {
        return refused(6, end);
    }
    Ok(FilledSizes {
        vertices: n,
        edges: m,
    })
}

// The first word from `from` on, below `end`, that is `limit` or more; `end` where there is none. A part of the calls; no host calls it.
#[tactic(auto, using(crate::proofs::Searches::search_steps))]
pub fn first_at_least(words: &[u32], limit: usize, from: usize, end: usize) -> usize
    requires { (from ≤ end) × (end ≤ length words.now) }
    ensures { result ≡ first (at_least words.now limit) from end }
{
    for k in from..end {
        if limit <= words[k] as usize {
            return k;
        }
    }
    end
}
