// The direct simulation order of a parity game.
#![tactic(auto)]

mod small;
mod wide;

ghost use Rattle.std.specs.Prelude.{◌≡◌, ◌≤◌, length};
ghost use Rattle.theory.specs.Order.Governed.{marks_by, passes_by};
ghost use Rattle.table.specs.Table.{vertex_count};
ghost use Rattle.table.specs.WellFormed.{WellFormed};
ghost use Rattle.marks.specs.Marks.{marks_length};
ghost use Rattle.order.specs.OrderWritten.{MarksFilled, MarksDone, OrderDone};
ghost use Rattle.order.specs.OrderCall.{ordering_answer, MarksCall, OrderCall};

use marks::packed::length_for;
use marks::writing::copy_marks;
use order_small_losses::edges::SMALL;
use small::fill_small;
use table::{Refusal, refusal_of, refused};
use wide::fill_wide;

#[derive(Clone, Copy)]
pub struct PassCount {
    pub passes: u32,
}

// Writes the order of a well-formed table or, with `mirror`, its governed bisimulation into a buffer that is long enough. The arrays of each width
// are in a function of its own.
fn fill_marks(game: &[u16], marks: &mut [u8], mirror: bool) -> u32
    requires { WellFormed game.now × (marks_length (vertex_count game.now) ≤ length marks.old) }
    ensures { MarksFilled (marks_by mirror) (passes_by mirror) game.now marks.old result marks.new }
{
    let n = game[0] as usize;
    if n <= SMALL {
        return fill_small(game, marks, mirror);
    }
    fill_wide(game, marks, mirror)
}

// The same into both buffers, which are long enough. A part of the calls that leave such a relation; no host calls it.
pub fn fill_relation(game: &[u16], marks: &mut [u8], spare: &mut [u8], mirror: bool) -> u32
    requires well_formed { WellFormed game.now }
    requires game_in_bounds { (marks_length (vertex_count game.now) ≤ length marks.old) × (marks_length (vertex_count game.now) ≤ length spare.old) }
    ensures { MarksDone (marks_by mirror) (passes_by mirror) game.now marks.old spare.old result marks.new spare.new }
{
    let passes = fill_marks(game, marks, mirror);
    let n = game[0] as usize;
    copy_marks(marks, spare, length_for(n));
    passes
}

// Writes the order of a well-formed table. A part of the calls that leave it; no host calls it.
pub fn fill_order(game: &[u16], marks: &mut [u8], spare: &mut [u8]) -> u32
    requires well_formed { WellFormed game.now }
    requires game_in_bounds { (marks_length (vertex_count game.now) ≤ length marks.old) × (marks_length (vertex_count game.now) ≤ length spare.old) }
    ensures { OrderDone game.now marks.old spare.old result marks.new spare.new }
{
    fill_relation(game, marks, spare, false)
}

// Judges the buffers for a game of n vertices that was read, and writes its order or, with `mirror`, its governed bisimulation. A part of the two
// calls; no host calls it.
pub fn write_relation(
    game: &[u16],
    n: usize,
    marks: &mut [u8],
    spare: &mut [u8],
    mirror: bool,
) -> Result<PassCount, Refusal>
    requires { WellFormed game.now × (n ≡ vertex_count game.now) }
    ensures { MarksCall (marks_by mirror) (passes_by mirror) game.now marks.old spare.old (ordering_answer result) marks.new spare.new }
{
    let needed = length_for(n);
    if marks.len() < needed {
        return refused(21, needed);
    }
    if spare.len() < needed {
        return refused(22, needed);
    }
    let passes = fill_relation(game, marks, spare, mirror);
    Ok(PassCount { passes })
}

// Judges the game and the buffers, and writes the order into both. The verdict carries the pass count.
pub fn write_order(game: &[u16], marks: &mut [u8], spare: &mut [u8]) -> Result<PassCount, Refusal>
    ensures { OrderCall game.now marks.old spare.old (ordering_answer result) marks.new spare.new }
{
    let reading = table_reader::read_sizes(game);
    let Ok(sizes) = reading else {
        return Err(refusal_of(reading));
    };
    write_relation(game, sizes.vertices, marks, spare, false)
}
