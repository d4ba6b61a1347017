// The exports that edit a table, preview an edit or replay a trace, in the form of those of `abi`.
#![tactic(auto)]

ghost use Rattle.edit_rules.specs.declared.Edit.TheVariants.{Arrival, Leaving};
ghost use Rattle.abi_edit.specs.EditExports.{EditExport, PreviewExport, ReplayExport};

use abi_answer::{RaskjomiAnswer, of_replaying, of_tabulation};

// An edge added to the table that begins `table`; the classes and the order of the new table.
#[unsafe(no_mangle)]
pub extern "C" fn raskjomi_add_edge(
    table: &mut [u16],
    source: u32,
    target: u32,
    marks: &mut [u8],
    spare: &mut [u8],
    classes: &mut [u16],
) -> RaskjomiAnswer
    ensures { EditExport Arrival table.old source target marks.old spare.old classes.old result table.new marks.new spare.new classes.new }
{
    of_tabulation(edit::add_edge(table, source, target, marks, spare, classes))
}

// Every copy of an edge removed from the table that begins `table`; the classes and the order of the new table.
#[unsafe(no_mangle)]
pub extern "C" fn raskjomi_remove_edge(
    table: &mut [u16],
    source: u32,
    target: u32,
    marks: &mut [u8],
    spare: &mut [u8],
    classes: &mut [u16],
) -> RaskjomiAnswer
    ensures { EditExport Leaving table.old source target marks.old spare.old classes.old result table.new marks.new spare.new classes.new }
{
    of_tabulation(edit::remove_edge(table, source, target, marks, spare, classes))
}

// An edge added to a copy, in `table`, of the table that begins `game`; the classes and the order of the new table.
#[unsafe(no_mangle)]
pub extern "C" fn raskjomi_preview_add(
    game: &[u16],
    source: u32,
    target: u32,
    table: &mut [u16],
    marks: &mut [u8],
    spare: &mut [u8],
    classes: &mut [u16],
) -> RaskjomiAnswer
    ensures { PreviewExport Arrival game.now source target table.old marks.old spare.old classes.old result
        table.new marks.new spare.new classes.new }
{
    of_tabulation(edit_preview::preview_add(game, source, target, table, marks, spare, classes))
}

// Every copy of an edge removed from a copy, in `table`, of the table that begins `game`; the classes and the order of the new table.
#[unsafe(no_mangle)]
pub extern "C" fn raskjomi_preview_remove(
    game: &[u16],
    source: u32,
    target: u32,
    table: &mut [u16],
    marks: &mut [u8],
    spare: &mut [u8],
    classes: &mut [u16],
) -> RaskjomiAnswer
    ensures { PreviewExport Leaving game.now source target table.old marks.old spare.old classes.old result
        table.new marks.new spare.new classes.new }
{
    of_tabulation(edit_preview::preview_remove(game, source, target, table, marks, spare, classes))
}

// A trace of edits replayed in the table that begins `table`; the entries done, and the classes and the order of the final table.
#[unsafe(no_mangle)]
pub extern "C" fn raskjomi_replay(
    table: &mut [u16],
    trace: &[u16],
    marks: &mut [u8],
    spare: &mut [u8],
    classes: &mut [u16],
) -> RaskjomiAnswer
    ensures { ReplayExport table.old trace.now marks.old spare.old classes.old result table.new marks.new spare.new classes.new }
{
    of_replaying(edit_replay::replay(table, trace, marks, spare, classes))
}
