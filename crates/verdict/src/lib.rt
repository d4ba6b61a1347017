// The verdict call: whether a plan on the reduced game shows that a player wins at a vertex of the game. The crate calls the reduction and the
// plan acceptor, each by the part that supposes a game that was read, and concludes from their promises and the transfer of winners alone.
#![tactic(auto)]

ghost use Rattle.std.specs.Prelude.{◌≡◌};
ghost use Rattle.table.specs.WellFormed.{WellFormed};
ghost use Rattle.verdict.specs.VerdictCall.{verdict_answer, start_answer, VerdictCall};

use plan::judge_plan;
use reduction::{TableCounts, tabulate_classes};
use table::{Refusal, refusal_of, refused};

// What is confirmed of a player and a vertex. Wins and NotShown carry the number of classes and the reduced game's vertices and edges.
#[derive(Clone, Copy)]
pub enum Verdict {
    Wins(TableCounts),
    NotShown(TableCounts),
}

// Judges the game, the vertex and the memory, writes the order, the classes and the reduced game, and judges a plan on the reduced game: the
// player wins at the vertex if the plan passes and starts at the vertex's class. A plan that passes and starts elsewhere shows nothing.
pub fn give_verdict(
    game: &[u16],
    vertex: u32,
    player: u32,
    plan: &[u16],
    marks: &mut [u8],
    spare: &mut [u8],
    classes: &mut [u16],
    reduction: &mut [u16],
) -> Result<Verdict, Refusal>
    ensures { VerdictCall game.now vertex player plan.now marks.old spare.old classes.old reduction.old (verdict_answer result)
        marks.new spare.new classes.new reduction.new }
{
    let reading = table_reader::read_sizes(game);
    let Ok(sizes) = reading else {
        return Err(refusal_of(reading));
    };
    let v = vertex as usize;
    if sizes.vertices <= v {
        return refused(33, v);
    }
    let counts = tabulate_classes(game, sizes, marks, spare, classes, reduction, true)?;
    let size = 2 + 2 * counts.vertices + 2 * counts.edges;
    judge_reduced(&reduction[..size], player, plan, classes[v], counts)
}

// 11 to 16 about the reduced game, whose table is well formed as it was written, and whether the plan starts at the class.
fn judge_reduced(
    reduced: &[u16],
    player: u32,
    plan: &[u16],
    class: u16,
    counts: TableCounts,
) -> Result<Verdict, Refusal>
    requires { WellFormed reduced.now }
    ensures { verdict_answer result ≡ start_answer reduced.now player plan.now class counts }
{
    judge_plan(reduced, player, plan)?;
    if plan[2] == class {
        Ok(Verdict::Wins(counts))
    } else {
        Ok(Verdict::NotShown(counts))
    }
}
