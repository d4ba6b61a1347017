// Plans carried to another vertex.
#![tactic(auto)]

ghost use Rattle.std.specs.Prelude.{true, ◌++◌};
ghost use Rattle.theory.specs.Classes.Reduction.{reduced};
ghost use Rattle.reduction.specs.TableCall.{table_counts};
ghost use Rattle.carry_output.specs.PlanWords.{plan_words, plan_counts, carrying_answer};
ghost use Rattle.carry.specs.CarryCall.{CarryCall, class_carrying_answer, CarryClassCall};
ghost use Rattle.carry_output.specs.CarryParts.{carried_by, Arrived};
ghost use Rattle.carry.specs.ReducedMemory.{ReducedHeld, reduced_rows};

use carry_output::{PlanCounts, carry_to};
use marks::packed::length_for;
use plan::judge_plan;
use reduction::{TableCounts, tabulate_classes};
use table::{Refusal, refusal_of, refused};

// The number of classes, the vertices and edges of the reduced game, and the positions and links of the plan that is written.
#[derive(Clone, Copy)]
pub struct ClassPlanCounts {
    pub classes: usize,
    pub vertices: usize,
    pub edges: usize,
    pub positions: usize,
    pub links: usize,
}

// Judges the game, the memory and a plan on the game, and writes the order and the plan carried to the vertex. For Even the plan's start
// has to be below the vertex, for Odd the vertex below the start.
pub fn carry_plan(
    game: &[u16],
    player: u32,
    plan: &[u16],
    vertex: u32,
    marks: &mut [u8],
    spare: &mut [u8],
    output: &mut [u16],
) -> Result<PlanCounts, Refusal>
    ensures { CarryCall game.now player plan.now vertex marks.old spare.old output.old (carrying_answer result)
        marks.new spare.new output.new }
{
    let reading = table_reader::read_sizes(game);
    let Ok(sizes) = reading else {
        return Err(refusal_of(reading));
    };
    let needed = length_for(sizes.vertices);
    if marks.len() < needed {
        return refused(21, needed);
    }
    if spare.len() < needed {
        return refused(22, needed);
    }
    judge_plan(game, player, plan)?;
    order::fill_order(game, marks, spare);
    carry_to(
        game,
        player,
        plan,
        vertex as usize,
        marks,
        &plan[..0],
        output,
        false,
    )
}

// Judges the game and the memory, writes the order, the classes and the reduced game, judges a plan on the reduced game, and writes the plan
// carried to the vertex. A class compares as its lowest member.
pub fn carry_class_plan(
    game: &[u16],
    player: u32,
    plan: &[u16],
    vertex: u32,
    marks: &mut [u8],
    spare: &mut [u8],
    classes: &mut [u16],
    reduction: &mut [u16],
    output: &mut [u16],
) -> Result<ClassPlanCounts, Refusal>
    ensures { CarryClassCall game.now player plan.now vertex marks.old spare.old classes.old reduction.old output.old (class_carrying_answer result)
        marks.new spare.new classes.new reduction.new output.new }
{
    let reading = table_reader::read_sizes(game);
    let Ok(sizes) = reading else {
        return Err(refusal_of(reading));
    };
    let counts = tabulate_classes(game, sizes, marks, spare, classes, reduction, true)?;
    carry_reduced(
        game,
        player,
        plan,
        vertex as usize,
        marks,
        classes,
        reduction,
        output,
        counts,
    )
}

// 11 to 16 about the reduced game, which was written, then 33 to 35 and the plan's words.
fn carry_reduced(
    game: &[u16],
    player: u32,
    plan: &[u16],
    y: usize,
    marks: &[u8],
    classes: &[u16],
    reduction: &[u16],
    output: &mut [u16],
    counts: TableCounts,
) -> Result<ClassPlanCounts, Refusal>
    requires { ReducedHeld game.now marks.now classes.now reduction.now counts }
    ensures { Arrived (reduced_rows game.now player plan.now y output.old)
        (table_counts reduced game.now ++ plan_counts (carried_by true game.now player plan.now y))
        (plan_words (carried_by true game.now player plan.now y)) output.old (class_carrying_answer result)
        output.new }
{
    let size = 2 + 2 * counts.vertices + 2 * counts.edges;
    judge_plan(&reduction[..size], player, plan)?;
    let found = carry_to(game, player, plan, y, marks, classes, output, true)?;
    Ok(ClassPlanCounts {
        classes: counts.classes,
        vertices: counts.vertices,
        edges: counts.edges,
        positions: found.positions,
        links: found.links,
    })
}
