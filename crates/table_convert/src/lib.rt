// Games where the highest priority decides, turned into game tables, where the lowest does.
#![tactic(auto)]

mod writing;

ghost use Rattle.std.specs.Prelude.{◌≡◌};
ghost use Rattle.table.specs.Filling.{filling_answer};
ghost use Rattle.table_convert.specs.ConvertCall.{ConvertCall};

use table::{FilledSizes, Refusal, refusal_of, refused, slices};
use writing::{even_from, first_oversize, write_table};

// Judges the game and the memory, and writes the table with M − q for each priority q, M the smallest even number not below the highest.
// The verdict carries n and m.
pub fn write_lowest(game: &[u16], output: &mut [u16]) -> Result<FilledSizes, Refusal>
    ensures { ConvertCall game.now output.old (filling_answer result) output.new }
{
    let reading = table_reader::read_sizes(game);
    let Ok(sizes) = reading else {
        return Err(refusal_of(reading));
    };
    let n = sizes.vertices;
    let m = sizes.edges;
    let needed = 2 + 2 * n + 2 * m;
    if output.len() < needed {
        return refused(24, needed);
    }
    let highest = slices::highest(game, 2, n);
    let oversize = first_oversize(game, n, highest);
    if oversize < 2 + n {
        return refused(36, oversize);
    }
    write_table(game, n, m, even_from(highest), output);
    Ok(FilledSizes {
        vertices: n,
        edges: m,
    })
}
