// Who wins. Each function makes a call of the library, and its promise is what specs/ says of the slices after it: at each vertex exactly one
// player wins, and the winner at a vertex is the winner at its class.
#![tactic(auto)]

ghost use Rattle.theory.specs.Classes.Reduction.{quotient, reduced};
ghost use Rattle.order.specs.OrderCall.{ordering_answer};
ghost use Rattle.reduction.specs.TableCall.{tabulation_answer};
ghost use Rattle.carry.specs.CarryCall.{class_carrying_answer};
ghost use Rattle.verdict.specs.VerdictCall.{verdict_answer};
ghost use Rattle.claims_winners.specs.Winners.{OrderDecides, TableDecides, CarryDecides, VerdictDecides};

use carry::ClassPlanCounts;
use order::PassCount;
use reduction::TableCounts;
use table::Refusal;
use verdict::Verdict;

// Writes the order.
pub fn orders(game: &[u16], marks: &mut [u8], spare: &mut [u8]) -> Result<PassCount, Refusal>
    ensures { OrderDecides game.now marks.old spare.old (ordering_answer result) marks.new spare.new }
{
    order::write_order(game, marks, spare)
}

// Writes the quotient game.
pub fn quotients(
    game: &[u16],
    marks: &mut [u8],
    spare: &mut [u8],
    classes: &mut [u16],
    output: &mut [u16],
) -> Result<TableCounts, Refusal>
    ensures { TableDecides quotient game.now marks.old spare.old classes.old output.old (tabulation_answer result)
        marks.new spare.new classes.new output.new }
{
    reduction::write_quotient(game, marks, spare, classes, output)
}

// Writes the reduced game.
pub fn reduces(
    game: &[u16],
    marks: &mut [u8],
    spare: &mut [u8],
    classes: &mut [u16],
    output: &mut [u16],
) -> Result<TableCounts, Refusal>
    ensures { TableDecides reduced game.now marks.old spare.old classes.old output.old (tabulation_answer result)
        marks.new spare.new classes.new output.new }
{
    reduction::write_reduced(game, marks, spare, classes, output)
}

// Carries a plan on the reduced game.
pub fn carries_class(
    game: &[u16],
    player: u32,
    plan: &[u16],
    vertex: u32,
    marks: &mut [u8],
    spare: &mut [u8],
    classes: &mut [u16],
    reduction: &mut [u16],
    output: &mut [u16],
) -> Result<ClassPlanCounts, Refusal>
    ensures { CarryDecides game.now player plan.now vertex marks.old spare.old classes.old reduction.old output.old (class_carrying_answer result)
        marks.new spare.new classes.new reduction.new output.new }
{
    carry::carry_class_plan(
        game, player, plan, vertex, marks, spare, classes, reduction, output,
    )
}

// Gives a verdict.
pub fn gives_verdict(
    game: &[u16],
    vertex: u32,
    player: u32,
    plan: &[u16],
    marks: &mut [u8],
    spare: &mut [u8],
    classes: &mut [u16],
    reduction: &mut [u16],
) -> Result<Verdict, Refusal>
    ensures { VerdictDecides game.now vertex player plan.now marks.old spare.old classes.old reduction.old (verdict_answer result)
        marks.new spare.new classes.new reduction.new }
{
    verdict::give_verdict(game, vertex, player, plan, marks, spare, classes, reduction)
}
