// The search for the first pair in row order that fails. A part of the acceptor; no host calls it.
ghost use Rattle.std.specs.Prelude.{◌≡◌, ◌+◌, ◌*◌, ◌≤◌, length};
ghost use Rattle.table.specs.Table.{vertex_count};
ghost use Rattle.table.specs.WellFormed.{WellFormed};
ghost use Rattle.index.specs.Index.{EdgeIndex};
ghost use Rattle.marks.specs.Marks.{marks_length};
ghost use Rattle.marks.specs.PairInput.{PairInput};
ghost use Rattle.order_acceptor.specs.RelationCall.{direct_pair, pair_by, fails, first_failing};

use index::of_edges;
use marks::packed::is_marked;
use marks::test::{pair_passes, same_priority};
use table::limits::{EDGES, VERTEX_STARTS};

// A pair of vertices.
#[derive(Clone, Copy)]
pub struct Pair {
    pub v: usize,
    pub w: usize,
}

// Whether the pair is marked, and has unequal priorities or fails the test.
fn test_fails(
    game: &[u16],
    starts: &[u16],
    targets: &[u16],
    marks: &[u8],
    v: usize,
    w: usize,
) -> bool
    requires { PairInput game.now starts.now targets.now marks.now v w }
    ensures { result ≡ fails direct_pair game.now marks.now v w }
{
    if !is_marked(marks, game[0] as usize, v, w) {
        return false;
    }
    if !same_priority(game, v, w) {
        return true;
    }
    !pair_passes(game, starts, targets, marks, v, w)
}

// The same or, with `mirror`, whether its reverse is unmarked.
fn pair_fails(
    game: &[u16],
    starts: &[u16],
    targets: &[u16],
    marks: &[u8],
    v: usize,
    w: usize,
    mirror: bool,
) -> bool
    requires { PairInput game.now starts.now targets.now marks.now v w }
    ensures { result ≡ fails (pair_by mirror) game.now marks.now v w }
{
    if test_fails(game, starts, targets, marks, v, w) {
        return true;
    }
    if !mirror {
        return false;
    }
    let n = game[0] as usize;
    if !is_marked(marks, n, v, w) {
        return false;
    }
    !is_marked(marks, n, w, v)
}

// The first pair in row order that fails, or (n, 0).
fn first_failing(game: &[u16], starts: &[u16], targets: &[u16], marks: &[u8], mirror: bool) -> Pair
    requires well_formed { WellFormed game.now }
    requires edge_index { EdgeIndex game.now starts.now targets.now }
    requires game_in_bounds { marks_length (vertex_count game.now) ≤ length marks.now }
    ensures { result.v * vertex_count game.now + result.w ≡ first_failing (pair_by mirror) game.now marks.now }
{
    let n = game[0] as usize;
    let mut v = 0;
    // loops that are left by label with the failing pair, the form that document 01 names for this search
    let failing = 'rows: loop {
        if v >= n {
            break 'rows Pair { v, w: 0 };
        }
        for w in 0..n {
            if pair_fails(game, starts, targets, marks, v, w, mirror) {
                break 'rows Pair { v, w };
            }
        }
        v += 1;
    };
    failing
}

// The same, over an index of the edges in local arrays of 9,218 bytes.
pub fn failing_pair(game: &[u16], marks: &[u8], mirror: bool) -> Pair
    requires well_formed { WellFormed game.now }
    requires game_in_bounds { marks_length (vertex_count game.now) ≤ length marks.now }
    ensures { result.v * vertex_count game.now + result.w ≡ first_failing (pair_by mirror) game.now marks.now }
{
    let mut starts = [0u16; VERTEX_STARTS];
    let mut targets = [0u16; EDGES];
    of_edges(game, &mut starts, &mut targets);
    first_failing(game, &starts, &targets, marks, mirror)
}
