// What is claimed of the library. A function for each call that leaves the order: it makes the call, and its promise is what demand 3 says of
// the slices after it; two for the governed calls, by `GovernedSentences`. All is proved from the library's contracts alone.
#![tactic(auto)]

pub mod smallest;

ghost use Rattle.theory.specs.Classes.Reduction.{quotient, reduced};
ghost use Rattle.order.specs.OrderCall.{ordering_answer};
ghost use Rattle.classes.specs.ClassesCall.{classification_answer};
ghost use Rattle.reduction.specs.TableCall.{tabulation_answer};
ghost use Rattle.carry_output.specs.PlanWords.{carrying_answer};
ghost use Rattle.carry.specs.CarryCall.{class_carrying_answer};
ghost use Rattle.edit_rules.specs.declared.Edit.TheVariants.{Arrival, Leaving};
ghost use Rattle.claims.specs.Sentences.{Orders, Classifies, Tabulates, Contains, Carries, CarriesClass, Edits, Previews, Replays};
ghost use Rattle.claims.specs.GovernedSentences.{Governs, GovernsClasses};
ghost use Rattle.verdict.specs.VerdictCall.{verdict_answer};
ghost use Rattle.verdict.specs.Verdicts.{Verdicts};

use carry::ClassPlanCounts;
use carry_output::PlanCounts;
use claims::Containment;
use classes::ClassCount;
use edit_replay::Replaying;
use order::PassCount;
use reduction::TableCounts;
use table::Refusal;
use verdict::Verdict;

// Judges a relation, then writes the order.
pub fn contains(game: &[u16], relation: &[u8], marks: &mut [u8], spare: &mut [u8]) -> Containment
    ensures { Contains game.now relation.now marks.old spare.old result marks.new spare.new }
{
    let judged = order_acceptor::accept_relation(game, relation);
    let written = order::write_order(game, marks, spare);
    Containment {
        relation: judged,
        order: written,
    }
}

// Writes the order.
pub fn orders(game: &[u16], marks: &mut [u8], spare: &mut [u8]) -> Result<PassCount, Refusal>
    ensures { Orders game.now marks.old spare.old (ordering_answer result) marks.new spare.new }
{
    order::write_order(game, marks, spare)
}

// Writes the classes.
pub fn classifies(
    game: &[u16],
    marks: &mut [u8],
    spare: &mut [u8],
    classes: &mut [u16],
) -> Result<ClassCount, Refusal>
    ensures { Classifies game.now marks.old spare.old classes.old (classification_answer result) marks.new spare.new classes.new }
{
    classes::write_classes(game, marks, spare, classes)
}

// Writes the quotient game.
pub fn quotients(
    game: &[u16],
    marks: &mut [u8],
    spare: &mut [u8],
    classes: &mut [u16],
    output: &mut [u16],
) -> Result<TableCounts, Refusal>
    ensures { Tabulates quotient game.now marks.old spare.old classes.old output.old (tabulation_answer result)
        marks.new spare.new classes.new output.new }
{
    reduction::write_quotient(game, marks, spare, classes, output)
}

// Writes the reduced game.
pub fn reduces(
    game: &[u16],
    marks: &mut [u8],
    spare: &mut [u8],
    classes: &mut [u16],
    output: &mut [u16],
) -> Result<TableCounts, Refusal>
    ensures { Tabulates reduced game.now marks.old spare.old classes.old output.old (tabulation_answer result)
        marks.new spare.new classes.new output.new }
{
    reduction::write_reduced(game, marks, spare, classes, output)
}

// Carries a plan.
pub fn carries(
    game: &[u16],
    player: u32,
    plan: &[u16],
    vertex: u32,
    marks: &mut [u8],
    spare: &mut [u8],
    output: &mut [u16],
) -> Result<PlanCounts, Refusal>
    ensures { Carries game.now player plan.now vertex marks.old spare.old output.old (carrying_answer result)
        marks.new spare.new output.new }
{
    carry::carry_plan(game, player, plan, vertex, marks, spare, output)
}

// Carries a plan on the reduced game.
pub fn carries_class(
    game: &[u16],
    player: u32,
    plan: &[u16],
    vertex: u32,
    marks: &mut [u8],
    spare: &mut [u8],
    classes: &mut [u16],
    reduction: &mut [u16],
    output: &mut [u16],
) -> Result<ClassPlanCounts, Refusal>
    ensures { CarriesClass game.now player plan.now vertex marks.old spare.old classes.old reduction.old output.old (class_carrying_answer result)
        marks.new spare.new classes.new reduction.new output.new }
{
    carry::carry_class_plan(
        game, player, plan, vertex, marks, spare, classes, reduction, output,
    )
}

// Adds an edge.
pub fn adds(
    buffer: &mut [u16],
    source: u32,
    target: u32,
    marks: &mut [u8],
    spare: &mut [u8],
    classes: &mut [u16],
) -> Result<TableCounts, Refusal>
    ensures { Edits Arrival buffer.old source target marks.old spare.old classes.old (tabulation_answer result)
        buffer.new marks.new spare.new classes.new }
{
    edit::add_edge(buffer, source, target, marks, spare, classes)
}

// Removes an edge.
pub fn removes(
    buffer: &mut [u16],
    source: u32,
    target: u32,
    marks: &mut [u8],
    spare: &mut [u8],
    classes: &mut [u16],
) -> Result<TableCounts, Refusal>
    ensures { Edits Leaving buffer.old source target marks.old spare.old classes.old (tabulation_answer result)
        buffer.new marks.new spare.new classes.new }
{
    edit::remove_edge(buffer, source, target, marks, spare, classes)
}

// Previews an arrival.
pub fn previews_add(
    game: &[u16],
    source: u32,
    target: u32,
    table: &mut [u16],
    marks: &mut [u8],
    spare: &mut [u8],
    classes: &mut [u16],
) -> Result<TableCounts, Refusal>
    ensures { Previews Arrival game.now source target table.old marks.old spare.old classes.old (tabulation_answer result)
        table.new marks.new spare.new classes.new }
{
    edit_preview::preview_add(game, source, target, table, marks, spare, classes)
}

// Previews a leaving.
pub fn previews_remove(
    game: &[u16],
    source: u32,
    target: u32,
    table: &mut [u16],
    marks: &mut [u8],
    spare: &mut [u8],
    classes: &mut [u16],
) -> Result<TableCounts, Refusal>
    ensures { Previews Leaving game.now source target table.old marks.old spare.old classes.old (tabulation_answer result)
        table.new marks.new spare.new classes.new }
{
    edit_preview::preview_remove(game, source, target, table, marks, spare, classes)
}

// Replays a trace.
pub fn replays(
    buffer: &mut [u16],
    trace: &[u16],
    marks: &mut [u8],
    spare: &mut [u8],
    classes: &mut [u16],
) -> Replaying
    ensures { Replays buffer.old trace.now marks.old spare.old classes.old (tabulation_answer result.verdict) result.entries
        buffer.new marks.new spare.new classes.new }
{
    edit_replay::replay(buffer, trace, marks, spare, classes)
}

// Writes the largest governed bisimulation.
pub fn governs(game: &[u16], marks: &mut [u8], spare: &mut [u8]) -> Result<PassCount, Refusal>
    ensures { Governs game.now marks.old spare.old (ordering_answer result) marks.new spare.new }
{
    governed::write_governed(game, marks, spare)
}

// Writes its classes.
pub fn governs_classes(
    game: &[u16],
    marks: &mut [u8],
    spare: &mut [u8],
    classes: &mut [u16],
) -> Result<ClassCount, Refusal>
    ensures { GovernsClasses game.now marks.old spare.old classes.old (classification_answer result) marks.new spare.new classes.new }
{
    governed::write_governed_classes(game, marks, spare, classes)
}

// Gives a verdict.
pub fn gives_verdict(
    game: &[u16],
    vertex: u32,
    player: u32,
    plan: &[u16],
    marks: &mut [u8],
    spare: &mut [u8],
    classes: &mut [u16],
    reduction: &mut [u16],
) -> Result<Verdict, Refusal>
    ensures { Verdicts game.now vertex player plan.now marks.old spare.old classes.old reduction.old (verdict_answer result)
        marks.new spare.new classes.new reduction.new }
{
    verdict::give_verdict(game, vertex, player, plan, marks, spare, classes, reduction)
}
