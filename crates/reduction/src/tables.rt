// A part of this crate's calls and of the report; no host calls it.
// The table of a game of classes.
ghost use Rattle.std.specs.Prelude.{◌≡◌, ◌+◌, ◌*◌, ◌≤◌, length, get_or};
ghost use Rattle.theory.specs.Logic.Range.{tabulate};
ghost use Rattle.theory.specs.Order.Order.{order};
ghost use Rattle.table.specs.Limits.{vertex_limit, edge_limit, pair_words};
ghost use Rattle.table.specs.Table.{vertex_count, table_edges, table_length, game_of};
ghost use Rattle.table.specs.Answers.{written};
ghost use Rattle.table.specs.Placing.{placed};
ghost use Rattle.table.specs.WellFormed.{WellFormed};
ghost use Rattle.classes.specs.Numbering.{Ordered, classes_in, Represented};
ghost use Rattle.reduction_rows.specs.Reached.{words_for};
ghost use Rattle.reduction_edges.specs.Rows.{game_by};
ghost use Rattle.reduction.specs.TableRules.{TableFits};
ghost use Rattle.reduction.specs.Tables.{head_by, spread, Ascending, Workspace, TableFilled, TableDone};

use crate::TableCounts;
use classes::numbering::number_classes;
use order::fill_order;
use reduction_edges::listing::list_edges;
use table::limits::{PAIR_WORDS, VERTICES};
use table::slices;

// Vertices of a small game.
const SMALL_VERTICES: usize = 64;

// The pass count of the order, and the counts of the classes and the table.
#[derive(Clone, Copy)]
pub struct Filled {
    pub passes: u32,
    pub counts: TableCounts,
}

// Puts the `count` words from `at` on once more, behind them.
fn put_again(words: &mut [u16], at: usize, count: usize)
    requires { at + count + count ≤ length words.old }
    ensures { words.new ≡ placed (at + count) (tabulate count (λ i. get_or words.old (at + i) 0)) words.old }
{
    // not `copy_within`: the archives would call `memmove`
    for i in 0..count {
        words[at + count + i] = words[at + i];
    }
}

// Puts the sources of the edges of k classes from `at` on, by the places where the edges of each class stop.
fn write_sources(stops: &[u16], k: usize, output: &mut [u16], at: usize)
    requires { (k ≤ vertex_limit) × (k ≤ length stops.now) × Ascending at stops.now k (length output.old) }
    ensures { output.new ≡ placed at (spread at stops.now k) output.old }
{
    let mut start = at;
    for c in 0..k {
        let stop = usize::from(stops[c]);
        slices::fill(output, start, stop - start, c as u16);
        start = stop;
    }
}

// Writes the words of k classes and e edges before the targets: sizes, priorities and owners of the representatives, sources.
fn write_head(game: &[u16], reps: &[u16], k: usize, stops: &[u16], e: usize, output: &mut [u16])
    requires well_formed { WellFormed game.now × Represented (game_of game.now).n (order (game_of game.now)) reps.now × (k ≡ classes_in (game_of game.now)) }
    requires e_le_edge_limit { (e ≤ edge_limit) × (k ≤ length stops.now) × Ascending (2 + 2 * k) stops.now k (length output.old) }
    ensures { output.new ≡ written (head_by game.now reps.now k e (spread (2 + 2 * k) stops.now k)) output.old }
{
    let n = game[0] as usize;
    output[0] = k as u16;
    output[1] = e as u16;
    slices::gather(output, 2, game, 2, reps, k);
    slices::gather(output, 2 + k, game, 2 + n, reps, k);
    write_sources(stops, k, output, 2 + 2 * k);
}

// Writes the classes of marks that hold the order, and the table of the quotient or, with `drop`, of the reduced game. The representatives, the
// rows that the edges are found by and the places where the edges of each class stop go into lent arrays. The targets are listed where the
// sources belong, since their number isn't known before, and put again behind that.
fn fill_within(
    game: &[u16],
    marks: &[u8],
    classes: &mut [u16],
    output: &mut [u16],
    drop: bool,
    reps: &mut [u16],
    words: &mut [u64],
    stops: &mut [u16],
) -> TableCounts
    requires well_formed { WellFormed game.now × Ordered (game_of game.now) marks.now }
    requires game_in_bounds { (vertex_count game.now ≤ length classes.old) × (table_length (vertex_count game.now) (table_edges game.now) ≤ length output.old) }
    requires workspace { Workspace game.now reps.old words.old stops.old }
    ensures { TableFilled (game_by drop) game.now classes.old output.old result classes.new output.new }
{
    let n = game[0] as usize;
    let k = number_classes(marks, n, classes, reps);
    let at = 2 + 2 * k;
    let stop = list_edges(
        game, marks, classes, reps, k, drop, words, stops, output, at,
    );
    let e = stop - at;
    put_again(output, at, e);
    write_head(game, reps, k, stops, e, output);
    TableCounts {
        classes: k,
        vertices: k,
        edges: e,
    }
}

// The same in local arrays: N words each for the representatives and the places, W for the rows.
fn fill_sized<const N: usize, const W: usize>(
    game: &[u16],
    marks: &[u8],
    classes: &mut [u16],
    output: &mut [u16],
    drop: bool,
) -> TableCounts
    requires well_formed { WellFormed game.now × Ordered (game_of game.now) marks.now }
    requires game_in_bounds { (vertex_count game.now ≤ length classes.old) × (table_length (vertex_count game.now) (table_edges game.now) ≤ length output.old) }
    requires arrays_fit { (vertex_count game.now ≤ N) × (vertex_count game.now * words_for (vertex_count game.now) ≤ W) }
    requires sizes_bound { (N ≤ vertex_limit) × (W ≤ pair_words) }
    ensures { TableFilled (game_by drop) game.now classes.old output.old result classes.new output.new }
{
    let mut reps = [0u16; N];
    let mut words = [0u64; W];
    let mut stops = [0u16; N];
    fill_within(
        game, marks, classes, output, drop, &mut reps, &mut words, &mut stops,
    )
}

// The same, in arrays that go by the game's size: 768 bytes for a small game, and 34,816 for any other.
fn fill_table(
    game: &[u16],
    marks: &[u8],
    classes: &mut [u16],
    output: &mut [u16],
    drop: bool,
) -> TableCounts
    requires well_formed { WellFormed game.now × Ordered (game_of game.now) marks.now }
    requires game_in_bounds { (vertex_count game.now ≤ length classes.old) × (table_length (vertex_count game.now) (table_edges game.now) ≤ length output.old) }
    ensures { TableFilled (game_by drop) game.now classes.old output.old result classes.new output.new }
{
    let n = game[0] as usize;
    if SMALL_VERTICES < n {
        return fill_sized::<VERTICES, PAIR_WORDS>(game, marks, classes, output, drop);
    }
    fill_sized::<SMALL_VERTICES, SMALL_VERTICES>(game, marks, classes, output, drop)
}

// Writes all lent memory: the order, the classes and the table.
pub fn fill_memory(
    game: &[u16],
    marks: &mut [u8],
    spare: &mut [u8],
    classes: &mut [u16],
    output: &mut [u16],
    drop: bool,
) -> Filled
    requires { TableFits game.now marks.old spare.old classes.old output.old }
    ensures { TableDone (game_by drop) game.now marks.old spare.old classes.old output.old result.passes result.counts
        marks.new spare.new classes.new output.new }
{
    let passes = fill_order(game, marks, spare);
    let counts = fill_table(game, marks, classes, output, drop);
    Filled { passes, counts }
}
