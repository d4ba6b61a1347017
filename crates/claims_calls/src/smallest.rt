// The reduced-game call again: its promise is what CR 11 says of the counts and of the written table.
ghost use Rattle.reduction.specs.TableCall.{tabulation_answer};
ghost use Rattle.claims.specs.Smallest.{Minimizes};

use reduction::TableCounts;
use table::Refusal;

// Writes the reduced game.
pub fn minimizes(
    game: &[u16],
    marks: &mut [u8],
    spare: &mut [u8],
    classes: &mut [u16],
    output: &mut [u16],
) -> Result<TableCounts, Refusal>
    ensures { Minimizes game.now marks.old spare.old classes.old output.old (tabulation_answer result)
        marks.new spare.new classes.new output.new }
{
    reduction::write_reduced(game, marks, spare, classes, output)
}
