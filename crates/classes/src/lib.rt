// The classes of a game table.
#![tactic(auto)]

pub mod numbering;

ghost use Rattle.std.specs.Prelude.{◌≡◌, [], ◌≤◌};
ghost use Rattle.theory.specs.Order.Governed.{marks_by, relation_by};
ghost use Rattle.table.specs.Acceptance.{acceptance_answer};
ghost use Rattle.table.specs.Limits.{vertex_limit};
ghost use Rattle.table.specs.Table.{vertex_count};
ghost use Rattle.table.specs.Answers.{judge};
ghost use Rattle.table.specs.WellFormed.{WellFormed};
ghost use Rattle.classes.specs.ClassesCall.{memory_rows, classification_answer, total_of, words_of, NumberedCall, ClassesCall};
ghost use Rattle.classes.specs.NumberedMemory.{NumberedDone, ClassesDone};
ghost use Rattle.classes.specs.ClassesRules.{ClassesFit};

use marks::packed::length_for;
use table::{NoCounts, Refusal, refusal_of, refused};

#[derive(Clone, Copy)]
pub struct ClassCount {
    pub classes: usize,
}

// Judges the lengths of marks, spare and class words: 21 to 23. A part of the calls that write classes; no host calls it.
pub fn judge_memory(
    n: usize,
    marks: usize,
    spare: usize,
    classes: usize,
) -> Result<NoCounts, Refusal>
    requires { n ≤ vertex_limit }
    ensures { acceptance_answer result ≡ judge (memory_rows n marks spare classes) [] }
{
    let needed = length_for(n);
    if marks < needed {
        return refused(21, needed);
    }
    if spare < needed {
        return refused(22, needed);
    }
    if classes < n {
        return refused(23, n);
    }
    Ok(NoCounts {})
}

// Writes the order of a game of n vertices or, with `mirror`, its governed bisimulation into marks and spare, and the class of each vertex by it, in
// memory that is long enough. Returns the number of classes. A part of the calls that write classes; no host calls it.
pub fn fill_numbered(
    game: &[u16],
    n: usize,
    marks: &mut [u8],
    spare: &mut [u8],
    classes: &mut [u16],
    mirror: bool,
) -> usize
    requires { ClassesFit game.now marks.old spare.old classes.old × (n ≡ vertex_count game.now) }
    ensures { NumberedDone (marks_by mirror) (total_of (relation_by mirror)) (words_of (relation_by mirror))
        game.now marks.old spare.old classes.old result
        marks.new spare.new classes.new }
{
    order::fill_relation(game, marks, spare, mirror);
    numbering::fill_classes(marks, n, classes)
}

// Writes the order of a game of n vertices into marks and spare, and the class of each vertex, in memory that is long enough. Returns the
// number of classes. A part of the calls that leave classes and no table of them; no host calls it.
pub fn fill_memory(
    game: &[u16],
    n: usize,
    marks: &mut [u8],
    spare: &mut [u8],
    classes: &mut [u16],
) -> usize
    requires { ClassesFit game.now marks.old spare.old classes.old × (n ≡ vertex_count game.now) }
    ensures { ClassesDone game.now marks.old spare.old classes.old result marks.new spare.new classes.new }
{
    fill_numbered(game, n, marks, spare, classes, false)
}

// Judges the memory for a game of n vertices that was read, and writes its order or, with `mirror`, its governed bisimulation, and the class of each
// vertex by it. A part of the two calls; no host calls it.
pub fn write_numbered(
    game: &[u16],
    n: usize,
    marks: &mut [u8],
    spare: &mut [u8],
    classes: &mut [u16],
    mirror: bool,
) -> Result<ClassCount, Refusal>
    requires { WellFormed game.now × (n ≡ vertex_count game.now) }
    ensures { NumberedCall (marks_by mirror) (total_of (relation_by mirror)) (words_of (relation_by mirror))
        game.now marks.old spare.old classes.old (classification_answer result)
        marks.new spare.new classes.new }
{
    judge_memory(n, marks.len(), spare.len(), classes.len())?;
    let k = fill_numbered(game, n, marks, spare, classes, mirror);
    Ok(ClassCount { classes: k })
}

// Judges the game and the memory, and writes the order into marks and spare, and the class of each vertex.
pub fn write_classes(
    game: &[u16],
    marks: &mut [u8],
    spare: &mut [u8],
    classes: &mut [u16],
) -> Result<ClassCount, Refusal>
    ensures { ClassesCall game.now marks.old spare.old classes.old (classification_answer result) marks.new spare.new classes.new }
{
    let reading = table_reader::read_sizes(game);
    let Ok(sizes) = reading else {
        return Err(refusal_of(reading));
    };
    write_numbered(game, sizes.vertices, marks, spare, classes, false)
}
