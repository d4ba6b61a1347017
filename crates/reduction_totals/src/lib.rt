// The members and the edges of each class, and their sums. Parts of the report; no host calls these.
#![tactic(auto)]

ghost use Rattle.std.specs.Prelude.{◌≡◌, ◌≤◌, length, get_or};
ghost use Rattle.theory.specs.Logic.Range.{sum, tabulate};
ghost use Rattle.table.specs.Limits.{vertex_limit};
ghost use Rattle.table.specs.Answers.{written};
ghost use Rattle.index.specs.Index.{from, source_count, Column};
ghost use Rattle.classes.specs.ClassesCall.{class_total};
ghost use Rattle.reduction_totals.specs.Counting.{Tabulated, Totalled};

use index::count_sources;
use table::limits::VERTICES;
use table::slices::copy;

// The sums over all classes.
#[derive(Clone, Copy)]
pub struct Totals {
    pub members: usize,
    pub edges: usize,
}

// Writes, for each c below k, how many of the m words from word a on are c. They are counted in a local array of 1,024 bytes.
fn tally(words: &[u16], a: usize, m: usize, k: usize, counts: &mut [u16])
    requires column { Column words.now a m k }
    requires k_le_vertex_limit { (k ≤ vertex_limit) × (k ≤ length counts.old) }
    ensures { counts.new ≡ written (tabulate k (source_count (from words.now a) m)) counts.old }
{
    let mut tallied = [0u16; VERTICES];
    count_sources(words, a, m, k, &mut tallied);
    copy(counts, 0, &tallied, k);
}

// The sum of the first k words.
fn sum_of(values: &[u16], k: usize) -> usize
    requires { (k ≤ vertex_limit) × (k ≤ length values.now) }
    ensures { result ≡ sum k (λ c. get_or values.now c 0) }
{
    values[..k].iter().map(|value| usize::from(*value)).sum()
}

// Writes how many members each class has, by the class words of a game, and how many edges, by the table of its reduced game. Returns both
// sums.
pub fn write_totals(
    game: &[u16],
    classes: &[u16],
    reduced: &[u16],
    members: &mut [u16],
    edges: &mut [u16],
) -> Totals
    requires tabulated { Tabulated game.now classes.now reduced.now }
    requires game_in_bounds { (class_total game.now ≤ length members.old) × (class_total game.now ≤ length edges.old) }
    ensures { Totalled game.now members.old edges.old result members.new edges.new }
{
    let n = game[0] as usize;
    let k = reduced[0] as usize;
    let e = reduced[1] as usize;
    tally(classes, 0, n, k, members);
    tally(reduced, 2 + 2 * k, e, k, edges);
    Totals {
        members: sum_of(members, k),
        edges: sum_of(edges, k),
    }
}
