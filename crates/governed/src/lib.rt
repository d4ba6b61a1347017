// Governed bisimulations of a game table: the calls of the order, of the relation acceptor and of the classes, with this relation in place of
// the order. All of the work is in the parts that they share.
#![tactic(auto)]

ghost use Rattle.std.specs.Prelude.{◌≡◌};
ghost use Rattle.table.specs.Acceptance.{acceptance_answer};
ghost use Rattle.order.specs.OrderCall.{ordering_answer};
ghost use Rattle.classes.specs.ClassesCall.{classification_answer};
ghost use Rattle.governed.specs.GovernedCall.{GovernedCall, governed_answer, GovernedClassesCall};

use classes::{ClassCount, write_numbered};
use order::{PassCount, write_relation};
use order_acceptor::judge_marks;
use table::{NoCounts, Refusal, refusal_of};

// Judges the game and the buffers, and writes the largest governed bisimulation into both. The verdict carries the pass count.
pub fn write_governed(
    game: &[u16],
    marks: &mut [u8],
    spare: &mut [u8],
) -> Result<PassCount, Refusal>
    ensures { GovernedCall game.now marks.old spare.old (ordering_answer result) marks.new spare.new }
{
    let reading = table_reader::read_sizes(game);
    let Ok(sizes) = reading else {
        return Err(refusal_of(reading));
    };
    write_relation(game, sizes.vertices, marks, spare, true)
}

// Judges the game and the marks: accepted if the marked pairs form a governed bisimulation.
pub fn accept_governed(game: &[u16], marks: &[u8]) -> Result<NoCounts, Refusal>
    ensures { acceptance_answer result ≡ governed_answer game.now marks.now }
{
    let reading = table_reader::read_sizes(game);
    let Ok(sizes) = reading else {
        return Err(refusal_of(reading));
    };
    judge_marks(game, sizes.vertices, marks, true)
}

// Judges the game and the memory, and writes the largest governed bisimulation into marks and spare, and the class of each vertex by it.
pub fn write_governed_classes(
    game: &[u16],
    marks: &mut [u8],
    spare: &mut [u8],
    classes: &mut [u16],
) -> Result<ClassCount, Refusal>
    ensures { GovernedClassesCall game.now marks.old spare.old classes.old (classification_answer result) marks.new spare.new classes.new }
{
    let reading = table_reader::read_sizes(game);
    let Ok(sizes) = reading else {
        return Err(refusal_of(reading));
    };
    write_numbered(game, sizes.vertices, marks, spare, classes, true)
}
