// M, and the words of the table that is written. Parts of the call; no host calls these.
ghost use Rattle.std.specs.Prelude.{◌≡◌, ◌+◌, ◌-◌, ◌≤◌, length};
ghost use Rattle.theory.specs.Logic.Range.{tabulate};
ghost use Rattle.table.specs.Table.{vertex_count, table_edges, priority_at, table_length};
ghost use Rattle.table.specs.Answers.{written};
ghost use Rattle.table.specs.WellFormed.{WellFormed};
ghost use Rattle.table.specs.Placing.{placed};
ghost use Rattle.table_convert.specs.LowestTable.{highest, even_from, even_above, lowest_table};
ghost use Rattle.table_convert.specs.ConvertCall.{first_oversize};
ghost use Rattle.table_convert.specs.PriorityRange.{PriorityRange};

use table::slices;

// The smallest even number not below q.
pub fn even_from(q: u16) -> usize
    ensures { result ≡ even_from q }
{
    usize::from(q).next_multiple_of(2)
}

// 36: the first word of a priority 0, where the highest is 65,535.
pub fn first_oversize(game: &[u16], n: usize, most: u16) -> usize
    requires { (n ≡ vertex_count game.now) × (most ≡ highest game.now) × (2 + n ≤ length game.now) }
    ensures { result ≡ first_oversize game.now }
{
    for k in 2..2 + n {
        if most == 65535 && game[k] == 0 {
            return k;
        }
    }
    2 + n
}

// Writes even − q for each priority q.
fn write_priorities(game: &[u16], n: usize, even: usize, output: &mut [u16])
    requires { (2 + n ≤ length game.now) × (2 + n ≤ length output.old) × PriorityRange n even game.now }
    ensures { output.new ≡ placed 2 (tabulate n (λ v. even - priority_at game.now v)) output.old }
{
    for v in 0..n {
        output[2 + v] = (even - usize::from(game[2 + v])) as u16;
    }
}

// Writes the table: its sizes, the new priorities, and all other words as they stand.
pub fn write_table(game: &[u16], n: usize, m: usize, even: usize, output: &mut [u16])
    requires well_formed { WellFormed game.now × (n ≡ vertex_count game.now) × (m ≡ table_edges game.now) × (even ≡ even_above game.now) }
    requires m_in_bounds { (table_length n m ≤ length output.old) × PriorityRange n even game.now }
    ensures { output.new ≡ written (lowest_table game.now) output.old }
{
    output[0] = n as u16;
    output[1] = m as u16;
    write_priorities(game, n, even, output);
    slices::copy(output, 2 + n, &game[2 + n..], n + 2 * m);
}
