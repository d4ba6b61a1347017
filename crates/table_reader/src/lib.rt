// The reader of game tables, and the kinds of refusals.
#![tactic(auto)]

ghost use Rattle.std.specs.Prelude.{◌≡◌};
ghost use Rattle.table.specs.Filling.{filling_answer};
ghost use Rattle.table.specs.Reading.{read_answer, reading_answer, sizes_answer};
ghost use Rattle.table.specs.Kind.{kind_of};

use table::limits::{EDGES, VERTICES};
use table::{FilledSizes, Refusal, Sizes, refusal_of, refused, searches};

// Judges a game table, and counts its different edges. The calls that go on with the table ask `read_sizes`.
pub fn read(game: &[u16]) -> Result<Sizes, Refusal>
    ensures { reading_answer result ≡ read_answer game.now }
{
    let sizes = read_sizes(game)?;
    let n = sizes.vertices;
    let m = sizes.edges;
    let different = searches::count_different(game, n, m);
    Ok(Sizes {
        vertices: n,
        edges: m,
        different,
    })
}

// Judges a game table: refusals 1 to 6 and 8 in order, each over the whole table before the next. A part of the calls; no host calls it.
pub fn read_sizes(game: &[u16]) -> Result<FilledSizes, Refusal>
    ensures { filling_answer result ≡ sizes_answer game.now }
{
    let len = game.len();
    if len < 2 {
        return refused(1, len);
    }
    let n = game[0] as usize;
    let m = game[1] as usize;
    if n == 0 || VERTICES < n {
        return refused(2, 0);
    }
    if EDGES < m {
        return refused(3, 1);
    }
    if len != 2 + 2 * n + 2 * m {
        return refused(4, len);
    }
    let owner = searches::first_owner(game, n);
    if owner < 2 + 2 * n {
        return refused(5, owner);
    }
    let end = searches::first_end(game, n, m);
    if end < len {
        return refused(6, end);
    }
    let lacking = searches::first_lacking(game, n, m);
    if lacking < n {
        return refused(8, lacking);
    }
    Ok(FilledSizes {
        vertices: n,
        edges: m,
    })
}

// The kind of a refusal: 1 the game, 2 the relation, 3 the plan, 4 the memory, 5 later additions, 0 for any other number.
pub fn kind(number: u32) -> u32
    ensures { result ≡ kind_of number }
{
    match number {
        1..=8 => 1,
        9..=10 => 2,
        11..=16 => 3,
        21..=24 => 4,
        31..=99 => 5,
        _ => 0,
    }
}
