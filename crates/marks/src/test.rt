// The pair test of direct simulation, over an index of the edges.
ghost use Rattle.std.specs.Prelude.{◌≡◌, ◌<◌, ◌≤◌, length};
ghost use Rattle.theory.specs.Logic.Range.{any_from};
ghost use Rattle.theory.specs.Games.Game.{even};
ghost use Rattle.theory.specs.Order.Order.{equal_priority, test};
ghost use Rattle.table.specs.Limits.{vertex_limit};
ghost use Rattle.table.specs.Table.{vertex_count, game_of};
ghost use Rattle.table.specs.WellFormed.{WellFormed};
ghost use Rattle.marks.specs.Marks.{relation};
ghost use Rattle.marks.specs.PairInput.{PairInput};
ghost use Rattle.marks.specs.MarkSearch.{search_ends, Reaches};

use crate::packed::finds;
use index::{Run, run_of};

// Whether for some target x of xs the search for a target y of ys with the wanted mark ends as `found`; the mark of x and y is number
// x * across + y * down.
fn some_ends(
    marks: &[u8],
    targets: &[u16],
    xs: Run,
    ys: Run,
    across: usize,
    down: usize,
    wanted: bool,
    found: bool,
) -> bool
    requires end_in_bounds { (xs.end ≤ length targets.now) × (ys.end ≤ length targets.now) × (across ≤ vertex_limit) }
    requires reaches { Reaches marks.now targets.now xs.from xs.end ys.from ys.end across down }
    ensures { result ≡ any_from xs.from xs.end (search_ends marks.now targets.now ys.from ys.end across down wanted found) }
{
    for i in xs.from..xs.end {
        let base = usize::from(targets[i]) * across;
        if finds(marks, targets, ys, base, down, wanted) == found {
            return true;
        }
    }
    false
}

// Whether the priorities are equal.
pub fn same_priority(game: &[u16], v: usize, w: usize) -> bool
    requires well_formed { WellFormed game.now }
    requires v_bound { (v < vertex_count game.now) × (w < vertex_count game.now) }
    ensures { result ≡ equal_priority (game_of game.now) (game_of game.now) v w }
{
    let p = game[2 + v];
    let q = game[2 + w];
    p == q
}

// Document 01's test of the pair (v, w) under the marks. A row asks one search, over v' and w' or over w' and v'.
pub fn pair_passes(
    game: &[u16],
    starts: &[u16],
    targets: &[u16],
    marks: &[u8],
    v: usize,
    w: usize,
) -> bool
    requires { PairInput game.now starts.now targets.now marks.now v w }
    ensures { result ≡ test even (game_of game.now) (game_of game.now) (relation (vertex_count game.now) marks.now) v w }
{
    let n = game[0] as usize;
    let vs = run_of(starts, v);
    let ws = run_of(starts, w);
    let owners = 2 * game[2 + n + v] + game[2 + n + w];
    match owners {
        // no v' lacks a marked w'
        0 => !some_ends(marks, targets, vs, ws, n, 1, true, false),
        // no v' has an unmarked w'
        1 => !some_ends(marks, targets, vs, ws, n, 1, false, true),
        // some v' has a marked w'
        2 => some_ends(marks, targets, vs, ws, n, 1, true, true),
        // no w' lacks a marked v'
        _ => !some_ends(marks, targets, ws, vs, 1, n, true, false),
    }
}
