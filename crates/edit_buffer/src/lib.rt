// The two edits of a table that begins a buffer. Parts of the calls; no host calls these.
#![tactic(auto)]

ghost use Rattle.std.specs.Prelude.{◌≡◌, true, ◌+◌, ◌<◌, ◌≤◌, length};
ghost use Rattle.theory.specs.Logic.Range.{first};
ghost use Rattle.table.specs.Limits.{edge_limit};
ghost use Rattle.table.specs.Table.{table_length, table_in};
ghost use Rattle.table.specs.Answers.{Clean};
ghost use Rattle.edit_rules.specs.Edges.{edit_rows};
ghost use Rattle.edit_rules.specs.EditParts.{Formed, leads, Made};
ghost use Rattle.edit_rules.specs.declared.Edit.TheVariants.{Arrival, Leaving};

use edit_rules::Edit;
use edit_rules::listing::list_others;
use table::limits::EDGES;
use table::slices;

// Adds the edge at the end of both arrays, so that every target moves up by a word. The targets are meanwhile in a local array of 8,192
// bytes. Returns how many edges there are then.
fn arrive(buffer: &mut [u16], n: usize, m: usize, s: u16, t: u16) -> usize
    requires formed { Formed (table_in buffer.old) n m × (m < edge_limit) }
    requires m_in_bounds { table_length n m + 2 ≤ length buffer.old }
    ensures { Made Arrival buffer.old s t result buffer.new }
{
    let at = 2 + 2 * n + m;
    let mut targets = [0u16; EDGES];
    slices::copy(&mut targets, 0, &buffer[at..], m);
    buffer[1] = (m + 1) as u16;
    buffer[at] = s;
    slices::copy(buffer, at + 1, &targets, m);
    buffer[at + 1 + m] = t;
    m + 1
}

// Removes every copy of the edge, the first of which was found, and keeps the others in sequence; the words that are given up become 0. The edges
// that stay are meanwhile in local arrays of 16,384 bytes. Returns how many there are.
fn leave(buffer: &mut [u16], n: usize, m: usize, s: usize, t: usize, copy: usize) -> usize
    requires { Formed (table_in buffer.old) n m × (copy ≡ first (leads (table_in buffer.old) s t true) 0 m) }
    ensures { Made Leaving buffer.old s t result buffer.new }
{
    let size = 2 + 2 * n + 2 * m;
    let mut sources = [0u16; EDGES];
    let mut ends = [0u16; EDGES];
    let e = list_others(&buffer[..size], n, m, s, t, copy, &mut sources, &mut ends);
    buffer[1] = e as u16;
    slices::copy(buffer, 2 + 2 * n, &sources, e);
    slices::copy(buffer, 2 + 2 * n + e, &ends, e);
    slices::fill(buffer, 2 + 2 * n + 2 * e, 2 * (m - e), 0);
    e
}

// Makes an edit that was judged in the buffer, where the first copy of the edge was found. Returns how many edges there are then.
pub fn make_edit(
    buffer: &mut [u16],
    n: usize,
    m: usize,
    edit: Edit,
    source: u32,
    target: u32,
    copy: usize,
) -> usize
    requires formed { Formed (table_in buffer.old) n m × (copy ≡ first (leads (table_in buffer.old) source target true) 0 m) }
    requires clean { Clean (edit_rows edit (table_in buffer.old) (length buffer.old) source target) }
    ensures { Made edit buffer.old source target result buffer.new }
{
    match edit {
        Edit::Arrival => arrive(buffer, n, m, source as u16, target as u16),
        Edit::Leaving => leave(buffer, n, m, source as usize, target as usize, copy),
    }
}
