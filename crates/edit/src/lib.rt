// Edges that come and go: edits of a table that begins a buffer, with the order and the classes of the new table.
#![tactic(auto)]

ghost use Rattle.std.specs.Prelude.{◌≡◌, true, length};
ghost use Rattle.theory.specs.Logic.Range.{first};
ghost use Rattle.table.specs.Table.{table_in};
ghost use Rattle.table.specs.Answers.{Clean};
ghost use Rattle.classes.specs.ClassesRules.{ClassesFit};
ghost use Rattle.edit_rules.specs.Edges.{edit_rows};
ghost use Rattle.edit_rules.specs.EditParts.{Formed, leads};
ghost use Rattle.edit_rules.specs.declared.Edit.TheVariants.{Arrival, Leaving};
ghost use Rattle.reduction.specs.TableCall.{tabulation_answer};
ghost use Rattle.edit.specs.EditCall.{EditCall};
ghost use Rattle.edit.specs.EditedMemory.{EditDone};

use classes::{fill_memory, judge_memory};
use edit_buffer::make_edit;
use edit_rules::buffer::read_in;
use edit_rules::listing::scan_edges;
use edit_rules::{Edit, judge_edit};
use reduction::TableCounts;
use table::{Refusal, refusal_of};

// Makes an edit that was judged, and writes the order and the classes of the new table.
// `copy` is where a scan found the first copy of the edge.
pub fn apply_edit(
    buffer: &mut [u16],
    n: usize,
    m: usize,
    edit: Edit,
    source: u32,
    target: u32,
    copy: usize,
    marks: &mut [u8],
    spare: &mut [u8],
    classes: &mut [u16],
) -> TableCounts
    requires formed { Formed (table_in buffer.old) n m × ClassesFit (table_in buffer.old) marks.old spare.old classes.old }
    requires copy_value { copy ≡ first (leads (table_in buffer.old) source target true) 0 m }
    requires clean { Clean (edit_rows edit (table_in buffer.old) (length buffer.old) source target) }
    ensures { EditDone edit buffer.old source target marks.old spare.old classes.old result buffer.new marks.new spare.new classes.new }
{
    let edges = make_edit(buffer, n, m, edit, source, target, copy);
    let end = 2 + 2 * n + 2 * edges;
    let k = fill_memory(&buffer[..end], n, marks, spare, classes);
    TableCounts {
        classes: k,
        vertices: n,
        edges,
    }
}

// Judges the memory and the edit for a table of n vertices and m edges that was read, and makes the edit.
fn edit_table(
    buffer: &mut [u16],
    n: usize,
    m: usize,
    edit: Edit,
    source: u32,
    target: u32,
    marks: &mut [u8],
    spare: &mut [u8],
    classes: &mut [u16],
) -> Result<TableCounts, Refusal>
    requires { Formed (table_in buffer.old) n m }
    ensures { EditCall edit buffer.old source target marks.old spare.old classes.old (tabulation_answer result)
        buffer.new marks.new spare.new classes.new }
{
    judge_memory(n, marks.len(), spare.len(), classes.len())?;
    let len = buffer.len();
    let size = 2 + 2 * n + 2 * m;
    let s = source as usize;
    let t = target as usize;
    let scan = scan_edges(&buffer[..size], n, m, s, t);
    let copy = scan.copy;
    judge_edit(n, m, len, edit, s, t, copy < m, scan.another)?;
    let counts = apply_edit(
        buffer, n, m, edit, source, target, copy, marks, spare, classes,
    );
    Ok(counts)
}

// Adds the edge at the end of the table that begins the buffer, and writes the order and the classes of the new table.
pub fn add_edge(
    buffer: &mut [u16],
    source: u32,
    target: u32,
    marks: &mut [u8],
    spare: &mut [u8],
    classes: &mut [u16],
) -> Result<TableCounts, Refusal>
    ensures { EditCall Arrival buffer.old source target marks.old spare.old classes.old (tabulation_answer result)
        buffer.new marks.new spare.new classes.new }
{
    let reading = read_in(buffer);
    let Ok(sizes) = reading else {
        return Err(refusal_of(reading));
    };
    edit_table(
        buffer,
        sizes.vertices,
        sizes.edges,
        Edit::Arrival,
        source,
        target,
        marks,
        spare,
        classes,
    )
}

// Removes every copy of the edge from the table that begins the buffer, and writes the order and the classes of the new table.
pub fn remove_edge(
    buffer: &mut [u16],
    source: u32,
    target: u32,
    marks: &mut [u8],
    spare: &mut [u8],
    classes: &mut [u16],
) -> Result<TableCounts, Refusal>
    ensures { EditCall Leaving buffer.old source target marks.old spare.old classes.old (tabulation_answer result)
        buffer.new marks.new spare.new classes.new }
{
    let reading = read_in(buffer);
    let Ok(sizes) = reading else {
        return Err(refusal_of(reading));
    };
    edit_table(
        buffer,
        sizes.vertices,
        sizes.edges,
        Edit::Leaving,
        source,
        target,
        marks,
        spare,
        classes,
    )
}
