// The order by rows of one word, for games of at most 64 vertices.
ghost use Rattle.std.specs.Prelude.{◌≤◌, length};
ghost use Rattle.theory.specs.Order.Governed.{marks_by, passes_by};
ghost use Rattle.table.specs.Table.{vertex_count};
ghost use Rattle.table.specs.WellFormed.{WellFormed};
ghost use Rattle.words.specs.Word.{word_bits};
ghost use Rattle.marks.specs.Marks.{marks_length};
ghost use Rattle.order.specs.OrderWritten.{MarksFilled};

use marks::writing::write_small;
use order_small_losses::edges::{EDGE_WORDS, SMALL, fill};
use order_small_rounds::rounds;

// Writes the order of a well-formed table or, with `mirror`, its governed bisimulation into a buffer that is long enough, by rows in local arrays
// of 3 KiB.
pub fn fill_small(game: &[u16], marks: &mut [u8], mirror: bool) -> u32
    requires { WellFormed game.now × (vertex_count game.now ≤ word_bits) × (marks_length (vertex_count game.now) ≤ length marks.old) }
    ensures { MarksFilled (marks_by mirror) (passes_by mirror) game.now marks.old result marks.new }
{
    let mut edges = [0u64; EDGE_WORDS];
    let mut related = [0u64; SMALL];
    let mut lost = [0u64; SMALL];
    let mut falls = [0u64; SMALL];
    let mut next = [0u64; SMALL];
    fill(game, &mut edges);
    let passes = rounds(
        game,
        &edges,
        &mut related,
        &mut lost,
        &mut falls,
        &mut next,
        mirror,
    );
    let n = game[0] as usize;
    write_small(&related, n, marks);
    passes
}
