// Two reductions in a row: the function makes both calls, and its promise is what specs/ says of the slices after them, that the reduced game
// reduced again is itself.
#![tactic(auto)]

ghost use Rattle.claims_twice.specs.ReducedTwice.{ReducesTwice};

use reduction::TableCounts;
use table::Refusal;

// The verdicts of two calls in a row.
#[derive(Clone, Copy)]
pub struct Twice {
    pub first: Result<TableCounts, Refusal>,
    pub second: Result<TableCounts, Refusal>,
}

// Writes the reduced game, and then the reduced game of what was written, in a second set of buffers.
pub fn reduces_twice(
    game: &[u16],
    marks: &mut [u8],
    spare: &mut [u8],
    classes: &mut [u16],
    output: &mut [u16],
    next_marks: &mut [u8],
    next_spare: &mut [u8],
    next_classes: &mut [u16],
    next_output: &mut [u16],
) -> Twice
    ensures { ReducesTwice game.now marks.old spare.old classes.old output.old
        next_marks.old next_spare.old next_classes.old next_output.old result
        marks.new spare.new classes.new output.new next_marks.new next_spare.new next_classes.new next_output.new }
{
    let first = reduction::write_reduced(game, marks, spare, classes, output);
    let Ok(counts) = first else {
        return Twice {
            first,
            second: first,
        };
    };
    let size = 2 + 2 * counts.vertices + 2 * counts.edges;
    let second = reduction::write_reduced(
        &output[..size],
        next_marks,
        next_spare,
        next_classes,
        next_output,
    );
    Twice { first, second }
}
