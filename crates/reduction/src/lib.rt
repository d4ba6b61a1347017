// Quotient game and reduced game of a game table.
#![tactic(auto)]

pub mod tables;

ghost use Rattle.theory.specs.Classes.Reduction.{quotient, reduced};
ghost use Rattle.table.specs.WellFormed.{WellSized};
ghost use Rattle.reduction_edges.specs.Rows.{game_by};
ghost use Rattle.reduction.specs.TableCall.{tabulation_answer, TableCall};

use classes::judge_memory;
use table::{FilledSizes, Refusal, refusal_of, refused};

// The number of classes, and the vertices and edges of the table that is written.
#[derive(Clone, Copy)]
pub struct TableCounts {
    pub classes: usize,
    pub vertices: usize,
    pub edges: usize,
}

// Judges the memory for a game that was read, and writes the order, the classes, and the table of the quotient or, with `drop`, of the
// reduced game. A part of the calls that write such a table; no host calls it.
pub fn tabulate_classes(
    game: &[u16],
    sizes: FilledSizes,
    marks: &mut [u8],
    spare: &mut [u8],
    classes: &mut [u16],
    output: &mut [u16],
    drop: bool,
) -> Result<TableCounts, Refusal>
    requires { WellSized game.now sizes }
    ensures { TableCall (game_by drop) game.now marks.old spare.old classes.old output.old (tabulation_answer result)
        marks.new spare.new classes.new output.new }
{
    judge_memory(sizes.vertices, marks.len(), spare.len(), classes.len())?;
    let needed = 2 + 2 * sizes.vertices + 2 * sizes.edges;
    if output.len() < needed {
        return refused(24, needed);
    }
    let filled = tables::fill_memory(game, marks, spare, classes, output, drop);
    let counts = filled.counts;
    Ok(counts)
}

// Judges the game and the memory, and writes the order, the classes and the table of the quotient game. Its edges ascend.
pub fn write_quotient(
    game: &[u16],
    marks: &mut [u8],
    spare: &mut [u8],
    classes: &mut [u16],
    output: &mut [u16],
) -> Result<TableCounts, Refusal>
    ensures { TableCall quotient game.now marks.old spare.old classes.old output.old (tabulation_answer result)
        marks.new spare.new classes.new output.new }
{
    let reading = table_reader::read_sizes(game);
    let Ok(sizes) = reading else {
        return Err(refusal_of(reading));
    };
    tabulate_classes(game, sizes, marks, spare, classes, output, false)
}

// Judges the game and the memory, and writes the order, the classes and the table of the reduced game. Its edges ascend.
pub fn write_reduced(
    game: &[u16],
    marks: &mut [u8],
    spare: &mut [u8],
    classes: &mut [u16],
    output: &mut [u16],
) -> Result<TableCounts, Refusal>
    ensures { TableCall reduced game.now marks.old spare.old classes.old output.old (tabulation_answer result)
        marks.new spare.new classes.new output.new }
{
    let reading = table_reader::read_sizes(game);
    let Ok(sizes) = reading else {
        return Err(refusal_of(reading));
    };
    tabulate_classes(game, sizes, marks, spare, classes, output, true)
}
