// The order by rows of eight words, for every game.
ghost use Rattle.std.specs.Prelude.{◌≤◌, length};
ghost use Rattle.theory.specs.Order.Governed.{marks_by, passes_by};
ghost use Rattle.table.specs.Table.{vertex_count};
ghost use Rattle.table.specs.WellFormed.{WellFormed};
ghost use Rattle.marks.specs.Marks.{marks_length};
ghost use Rattle.order.specs.OrderWritten.{MarksFilled};

use marks::writing::write_marks;
use order_losses::edges::{EDGE_WORDS, fill};
use order_rounds::rounds;
use order_rows::row::WORDS;
use table::limits::VERTICES;

// The words of a relation in rows.
const RELATION_WORDS: usize = VERTICES * WORDS;

// Writes the order of a well-formed table or, with `mirror`, its governed bisimulation into a buffer that is long enough, by rows in local arrays
// of 192 KiB.
pub fn fill_wide(game: &[u16], marks: &mut [u8], mirror: bool) -> u32
    requires { WellFormed game.now × (marks_length (vertex_count game.now) ≤ length marks.old) }
    ensures { MarksFilled (marks_by mirror) (passes_by mirror) game.now marks.old result marks.new }
{
    let mut edges = [0u64; EDGE_WORDS];
    let mut related = [0u64; RELATION_WORDS];
    let mut lost = [0u64; RELATION_WORDS];
    let mut falls = [0u64; RELATION_WORDS];
    let mut next = [0u64; RELATION_WORDS];
    fill(game, &mut edges);
    let passes = rounds(
        game,
        &edges,
        &mut related,
        &mut lost,
        &mut falls,
        &mut next,
        mirror,
    );
    let n = game[0] as usize;
    write_marks(&related, n, marks);
    passes
}
