// The answer of the exports, by value, and what each verdict of the library is in its fields.
#![tactic(auto)]

ghost use Rattle.std.specs.Prelude.{◌≡◌};
ghost use Rattle.table.specs.Reading.{reading_answer};
ghost use Rattle.table.specs.Acceptance.{acceptance_answer};
ghost use Rattle.table.specs.Filling.{filling_answer};
ghost use Rattle.order.specs.OrderCall.{ordering_answer};
ghost use Rattle.classes.specs.ClassesCall.{classification_answer};
ghost use Rattle.reduction.specs.TableCall.{tabulation_answer};
ghost use Rattle.carry_output.specs.PlanWords.{carrying_answer};
ghost use Rattle.carry.specs.CarryCall.{class_carrying_answer};
ghost use Rattle.abi_answer.specs.Fields.{counted, turned_down, read_fields, order_fields, accept_fields, classes_fields, table_fields};
ghost use Rattle.abi_answer.specs.Fields.{fill_fields, carry_fields, class_carry_fields, replay_fields, SmallSizes, SmallFilling, SmallCount};
ghost use Rattle.abi_answer.specs.Fields.{SmallCounts, SmallCarrying, SmallClassCarrying, SmallReplaying};

use carry::ClassPlanCounts;
use carry_output::PlanCounts;
use classes::ClassCount;
use edit_replay::Replaying;
use order::PassCount;
use reduction::TableCounts;
use table::{FilledSizes, NoCounts, Refusal, Sizes};

// Number 0 for accepted, with the counts of the call; otherwise the refusal. All other fields are 0, but that a replay tells its entries with a
// refusal too. `shown` is 1 where the verdict call says "wins".
#[repr(C)]
#[derive(Clone, Copy)]
pub struct RaskjomiAnswer {
    pub number: u32,
    pub passes: u32,
    pub classes: u32,
    pub vertices: u32,
    pub edges: u32,
    pub different: u32,
    pub positions: u32,
    pub links: u32,
    pub entries: u32,
    pub place: usize,
    pub shown: u32,
}

fn accepted(
    passes: u32,
    classes: u32,
    vertices: u32,
    edges: u32,
    different: u32,
    positions: u32,
    links: u32,
) -> RaskjomiAnswer
    ensures { result ≡ counted passes classes vertices edges different positions links }
{
    RaskjomiAnswer {
        number: 0,
        passes,
        classes,
        vertices,
        edges,
        different,
        positions,
        links,
        entries: 0,
        place: 0,
        shown: 0,
    }
}

fn refused(refusal: Refusal) -> RaskjomiAnswer
    ensures { result ≡ turned_down refusal.number refusal.place }
{
    RaskjomiAnswer {
        number: refusal.number,
        passes: 0,
        classes: 0,
        vertices: 0,
        edges: 0,
        different: 0,
        positions: 0,
        links: 0,
        entries: 0,
        place: refusal.place,
        shown: 0,
    }
}

pub fn of_reading(reading: Result<Sizes, Refusal>) -> RaskjomiAnswer
    requires { SmallSizes reading }
    ensures { result ≡ read_fields (reading_answer reading) }
{
    match reading {
        Ok(sizes) => accepted(
            0,
            0,
            sizes.vertices as u32,
            sizes.edges as u32,
            sizes.different as u32,
            0,
            0,
        ),
        Err(refusal) => refused(refusal),
    }
}

pub fn of_ordering(ordering: Result<PassCount, Refusal>) -> RaskjomiAnswer
    ensures { result ≡ order_fields (ordering_answer ordering) }
{
    match ordering {
        Ok(count) => accepted(count.passes, 0, 0, 0, 0, 0, 0),
        Err(refusal) => refused(refusal),
    }
}

pub fn of_acceptance(acceptance: Result<NoCounts, Refusal>) -> RaskjomiAnswer
    ensures { result ≡ accept_fields (acceptance_answer acceptance) }
{
    match acceptance {
        Ok(_) => accepted(0, 0, 0, 0, 0, 0, 0),
        Err(refusal) => refused(refusal),
    }
}

pub fn of_classification(classification: Result<ClassCount, Refusal>) -> RaskjomiAnswer
    requires { SmallCount classification }
    ensures { result ≡ classes_fields (classification_answer classification) }
{
    match classification {
        Ok(count) => accepted(0, count.classes as u32, 0, 0, 0, 0, 0),
        Err(refusal) => refused(refusal),
    }
}

pub fn of_tabulation(tabulation: Result<TableCounts, Refusal>) -> RaskjomiAnswer
    requires { SmallCounts tabulation }
    ensures { result ≡ table_fields (tabulation_answer tabulation) }
{
    match tabulation {
        Ok(counts) => accepted(
            0,
            counts.classes as u32,
            counts.vertices as u32,
            counts.edges as u32,
            0,
            0,
            0,
        ),
        Err(refusal) => refused(refusal),
    }
}

pub fn of_filling(filling: Result<FilledSizes, Refusal>) -> RaskjomiAnswer
    requires { SmallFilling filling }
    ensures { result ≡ fill_fields (filling_answer filling) }
{
    match filling {
        Ok(counts) => accepted(0, 0, counts.vertices as u32, counts.edges as u32, 0, 0, 0),
        Err(refusal) => refused(refusal),
    }
}

pub fn of_carrying(carrying: Result<PlanCounts, Refusal>) -> RaskjomiAnswer
    requires { SmallCarrying carrying }
    ensures { result ≡ carry_fields (carrying_answer carrying) }
{
    match carrying {
        Ok(counts) => accepted(0, 0, 0, 0, 0, counts.positions as u32, counts.links as u32),
        Err(refusal) => refused(refusal),
    }
}

pub fn of_class_carrying(carrying: Result<ClassPlanCounts, Refusal>) -> RaskjomiAnswer
    requires { SmallClassCarrying carrying }
    ensures { result ≡ class_carry_fields (class_carrying_answer carrying) }
{
    match carrying {
        Ok(found) => accepted(
            0,
            found.classes as u32,
            found.vertices as u32,
            found.edges as u32,
            0,
            found.positions as u32,
            found.links as u32,
        ),
        Err(refusal) => refused(refusal),
    }
}

pub fn of_replaying(replaying: Replaying) -> RaskjomiAnswer
    requires { SmallReplaying replaying }
    ensures { result ≡ replay_fields (tabulation_answer replaying.verdict) replaying.entries }
{
    RaskjomiAnswer {
        entries: replaying.entries as u32,
        ..of_tabulation(replaying.verdict)
    }
}
