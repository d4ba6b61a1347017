// Games by the seed: a table of n vertices with d edges each, drawn by a generator that is the same on every machine.
#![tactic(auto)]

mod generator;
mod writing;

ghost use Rattle.std.specs.Prelude.{◌≡◌};
ghost use Rattle.table.specs.Filling.{filling_answer};
ghost use Rattle.table_seed.specs.SeedCall.{outside, unfit, SeedCall};

use table::limits::{EDGES, VERTICES};
use table::{FilledSizes, Refusal, refused};

// The largest degree and the largest count of priorities.
pub const DEGREES: usize = 16;

pub const PRIORITIES: usize = 65535;

// Whether x isn't 1 to `limit`.
fn is_outside(x: u32, limit: usize) -> bool
    ensures { result ≡ outside x limit }
{
    x == 0 || limit < x as usize
}

// Refusal 31. The ranges are judged before the product, so that it fits.
fn is_unfit(vertices: u32, degree: u32, priorities: u32) -> bool
    ensures { result ≡ unfit vertices degree priorities }
{
    if is_outside(vertices, VERTICES) {
        return true;
    }
    if is_outside(degree, DEGREES) {
        return true;
    }
    if is_outside(priorities, PRIORITIES) {
        return true;
    }
    EDGES < vertices as usize * degree as usize
}

// Writes the table of a seed. The verdict carries n and m.
pub fn write_seeded(
    seed: u32,
    vertices: u32,
    degree: u32,
    priorities: u32,
    output: &mut [u16],
) -> Result<FilledSizes, Refusal>
    ensures { SeedCall seed vertices degree priorities output.old (filling_answer result) output.new }
{
    if is_unfit(vertices, degree, priorities) {
        return refused(31, 0);
    }
    let n = vertices as usize;
    let d = degree as usize;
    let m = n * d;
    let needed = 2 + 2 * n + 2 * m;
    if output.len() < needed {
        return refused(32, needed);
    }
    writing::write_table(seed, n, d, priorities, output);
    Ok(FilledSizes {
        vertices: n,
        edges: m,
    })
}
