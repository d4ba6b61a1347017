// Edges that come and go in a table that begins a buffer: its reader, its edges listed, and refusals 37 to 39. Parts of the calls; no host
// calls these.
#![tactic(auto)]

pub mod buffer;
pub mod listing;

ghost use Rattle.std.specs.Prelude.{◌≡◌, [], ◌≤◌};
ghost use Rattle.table.specs.Limits.{vertex_limit, edge_limit};
ghost use Rattle.table.specs.Answers.{judge};
ghost use Rattle.table.specs.Acceptance.{acceptance_answer};
ghost use Rattle.edit_rules.specs.Edges.{misplaced};
ghost use Rattle.edit_rules.specs.EditParts.{change_facts, edit_facts};

use table::limits::EDGES;
use table::{NoCounts, Refusal, refused};

#[derive(Clone, Copy)]
pub enum Edit {
    Arrival,
    Leaving,
}

// What a scan for the edges from s to t finds: the first of them, or as many as there are edges where there is none, and whether an edge leads
// from s elsewhere.
#[derive(Clone, Copy)]
pub struct Scan {
    pub copy: usize,
    pub another: bool,
}

// Whether the edge is there already, for an arrival, or isn't there, for a leaving.
fn is_misplaced(edit: Edit, there: bool) -> bool
    ensures { result ≡ misplaced edit there }
{
    match edit {
        Edit::Arrival => there,
        Edit::Leaving => !there,
    }
}

// 38 for a leaving, by whether another edge of the source is there; 39 for an arrival into a buffer of `size` words.
fn judge_change(
    n: usize,
    m: usize,
    size: usize,
    edit: Edit,
    s: usize,
    another: bool,
) -> Result<NoCounts, Refusal>
    requires { (n ≤ vertex_limit) × (m ≤ edge_limit) }
    ensures { acceptance_answer result ≡ judge (change_facts edit n m size s another) [] }
{
    match edit {
        Edit::Arrival => {
            if EDGES <= m {
                return refused(39, m);
            }
            if size < 2 + 2 * n + 2 * m + 2 {
                return refused(39, m);
            }
            Ok(NoCounts {})
        }
        Edit::Leaving => {
            if another {
                return Ok(NoCounts {});
            }
            refused(38, s)
        }
    }
}

// Judges an edit of a table of n vertices and m edges that begins a buffer of `size` words, by whether the edge and another edge of its source are
// there: 37, then 38 or 39.
pub fn judge_edit(
    n: usize,
    m: usize,
    size: usize,
    edit: Edit,
    s: usize,
    t: usize,
    there: bool,
    another: bool,
) -> Result<NoCounts, Refusal>
    requires { (n ≤ vertex_limit) × (m ≤ edge_limit) }
    ensures { acceptance_answer result ≡ judge (edit_facts edit n m size s t there another) [] }
{
    if n <= s {
        return refused(37, s);
    }
    if n <= t {
        return refused(37, s);
    }
    if is_misplaced(edit, there) {
        return refused(37, s);
    }
    judge_change(n, m, size, edit, s, another)
}
