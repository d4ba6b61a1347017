// Previews: an edit of a shared table, made in a second lent set of table, marks, spare and class words.
#![tactic(auto)]

ghost use Rattle.table.specs.Table.{table_in};
ghost use Rattle.edit_rules.specs.EditParts.{Formed};
ghost use Rattle.edit_rules.specs.declared.Edit.TheVariants.{Arrival, Leaving};
ghost use Rattle.reduction.specs.TableCall.{tabulation_answer};
ghost use Rattle.edit_preview.specs.PreviewCall.{PreviewCall};

use classes::judge_memory;
use edit::apply_edit;
use edit_rules::buffer::read_in;
use edit_rules::listing::scan_edges;
use edit_rules::{Edit, judge_edit};
use reduction::TableCounts;
use table::{Refusal, refusal_of, refused, slices};

// Judges the second set and the edit for a first table of n vertices and m edges that was read, and makes the edit in a copy that begins the
// second table.
fn preview_table(
    game: &[u16],
    n: usize,
    m: usize,
    edit: Edit,
    source: u32,
    target: u32,
    table: &mut [u16],
    marks: &mut [u8],
    spare: &mut [u8],
    classes: &mut [u16],
) -> Result<TableCounts, Refusal>
    requires { Formed (table_in game.now) n m }
    ensures { PreviewCall edit game.now source target table.old marks.old spare.old classes.old (tabulation_answer result)
        table.new marks.new spare.new classes.new }
{
    judge_memory(n, marks.len(), spare.len(), classes.len())?;
    let len = table.len();
    let size = 2 + 2 * n + 2 * m;
    if len < size {
        return refused(24, size);
    }
    let s = source as usize;
    let t = target as usize;
    let scan = scan_edges(&game[..size], n, m, s, t);
    let copy = scan.copy;
    judge_edit(n, m, len, edit, s, t, copy < m, scan.another)?;
    slices::copy(table, 0, game, size);
    let counts = apply_edit(
        table, n, m, edit, source, target, copy, marks, spare, classes,
    );
    Ok(counts)
}

// Adds the edge to a copy of the table that begins `game`, in the second table, and writes the order and the classes of the new table.
pub fn preview_add(
    game: &[u16],
    source: u32,
    target: u32,
    table: &mut [u16],
    marks: &mut [u8],
    spare: &mut [u8],
    classes: &mut [u16],
) -> Result<TableCounts, Refusal>
    ensures { PreviewCall Arrival game.now source target table.old marks.old spare.old classes.old (tabulation_answer result)
        table.new marks.new spare.new classes.new }
{
    let reading = read_in(game);
    let Ok(sizes) = reading else {
        return Err(refusal_of(reading));
    };
    preview_table(
        game,
        sizes.vertices,
        sizes.edges,
        Edit::Arrival,
        source,
        target,
        table,
        marks,
        spare,
        classes,
    )
}

// Removes every copy of the edge from a copy of the table that begins `game`, in the second table, and writes the order and the classes of the
// new table.
pub fn preview_remove(
    game: &[u16],
    source: u32,
    target: u32,
    table: &mut [u16],
    marks: &mut [u8],
    spare: &mut [u8],
    classes: &mut [u16],
) -> Result<TableCounts, Refusal>
    ensures { PreviewCall Leaving game.now source target table.old marks.old spare.old classes.old (tabulation_answer result)
        table.new marks.new spare.new classes.new }
{
    let reading = read_in(game);
    let Ok(sizes) = reading else {
        return Err(refusal_of(reading));
    };
    preview_table(
        game,
        sizes.vertices,
        sizes.edges,
        Edit::Leaving,
        source,
        target,
        table,
        marks,
        spare,
        classes,
    )
}
