// The words of a seeded table. Parts of the call; no host calls these.
ghost use Rattle.std.specs.Prelude.{◌≡◌, ◌+◌, ◌*◌, ◌%◌, ◌<◌, ◌≤◌, length, slice_set};
ghost use Rattle.table.specs.Limits.{vertex_limit};
ghost use Rattle.table.specs.Table.{table_length};
ghost use Rattle.table.specs.Answers.{written};
ghost use Rattle.table_seed.specs.Generator.{step, draw_of};
ghost use Rattle.table_seed.specs.SeedTable.{seed_table};
ghost use Rattle.table_seed.specs.Progress.{TableFits, EdgesDrawn, VertexDrawn};

use crate::generator::Generator;

// Writes edge j of m, which leaves v: a draw for its target.
fn write_edge(
    generator: Generator,
    n: usize,
    m: usize,
    v: usize,
    j: usize,
    output: &mut [u16],
) -> Generator
    requires { (v < n) × (n ≤ vertex_limit) × (j < m) × (table_length n m ≤ length output.old) }
    ensures state_value { result.state ≡ step generator.state }
    ensures output_value { output.new ≡ slice_set (slice_set output.old (2 + 2 * n + j) v) (2 + 2 * n + m + j) (draw_of generator.state % n) }
{
    let target = generator.draw_below(n as u32);
    output[2 + 2 * n + j] = v as u16;
    output[2 + 2 * n + m + j] = target.value;
    target.next
}

// Writes the d edges that leave v.
fn write_edges(generator: Generator, n: usize, d: usize, v: usize, output: &mut [u16]) -> Generator
    requires { TableFits n d output.old × (v < n) }
    ensures { EdgesDrawn n d v d generator.state output.old result.state output.new }
{
    let m = n * d;
    let mut next = generator;
    for i in 0..d {
        next = write_edge(next, n, m, v, v * d + i, output);
    }
    next
}

// Writes vertex v: a draw for its priority, one for its owner, then its edges.
fn write_vertex(
    generator: Generator,
    n: usize,
    d: usize,
    c: u32,
    v: usize,
    output: &mut [u16],
) -> Generator
    requires { TableFits n d output.old × (0 < c) × (v < n) }
    ensures { VertexDrawn n d c v generator.state output.old result.state output.new }
{
    let priority = generator.draw_below(c);
    let next = priority.next;
    let owner = next.draw_below(2);
    output[2 + v] = priority.value;
    output[2 + n + v] = owner.value;
    write_edges(owner.next, n, d, v, output)
}

// Writes the table.
pub fn write_table(seed: u32, n: usize, d: usize, c: u32, output: &mut [u16])
    requires { TableFits n d output.old × (0 < c) }
    ensures { output.new ≡ written (seed_table seed n d c) output.old }
{
    output[0] = n as u16;
    output[1] = (n * d) as u16;
    let mut generator = Generator { state: seed };
    for v in 0..n {
        generator = write_vertex(generator, n, d, c, v, output);
    }
}
