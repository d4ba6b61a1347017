// The exports for a Rust host: numbers and slices in, one answer by value out. A slice passes as a pointer and a length. Those that carry a plan,
// are about governed bisimulations, edit a table or give a verdict stand in crates of their own, so that a check of each is short.
#![tactic(auto)]

ghost use Rattle.std.specs.Prelude.{◌≡◌};
ghost use Rattle.theory.specs.Classes.Reduction.{quotient, reduced};
ghost use Rattle.table.specs.Reading.{read_answer};
ghost use Rattle.table.specs.Kind.{kind_of};
ghost use Rattle.order_acceptor.specs.RelationCall.{relation_answer};
ghost use Rattle.plan.specs.Acceptance.{plan_answer};
ghost use Rattle.abi_answer.specs.Fields.{read_fields, accept_fields};
ghost use Rattle.abi_answer.specs.Exports.{OrderExport, ClassesExport, TableExport, SeedExport, ConvertExport};

use abi_answer::{
    RaskjomiAnswer, of_acceptance, of_classification, of_filling, of_ordering, of_reading,
    of_tabulation,
};

// The kind of a refusal number.
#[unsafe(no_mangle)]
pub extern "C" fn raskjomi_kind(number: u32) -> u32
    ensures { result ≡ kind_of number }
{
    table_reader::kind(number)
}

// The reader.
#[unsafe(no_mangle)]
pub extern "C" fn raskjomi_read(game: &[u16]) -> RaskjomiAnswer
    ensures { result ≡ read_fields (read_answer game.now) }
{
    of_reading(table_reader::read(game))
}

// The relation acceptor.
#[unsafe(no_mangle)]
pub extern "C" fn raskjomi_accept_relation(game: &[u16], marks: &[u8]) -> RaskjomiAnswer
    ensures { result ≡ accept_fields (relation_answer game.now marks.now) }
{
    of_acceptance(order_acceptor::accept_relation(game, marks))
}

// The order, into marks and spare.
#[unsafe(no_mangle)]
pub extern "C" fn raskjomi_order(game: &[u16], marks: &mut [u8], spare: &mut [u8]) -> RaskjomiAnswer
    ensures { OrderExport game.now marks.old spare.old result marks.new spare.new }
{
    of_ordering(order::write_order(game, marks, spare))
}

// The plan acceptor. Player 0 is Even, 1 Odd.
#[unsafe(no_mangle)]
pub extern "C" fn raskjomi_accept_plan(game: &[u16], player: u32, plan: &[u16]) -> RaskjomiAnswer
    ensures { result ≡ accept_fields (plan_answer game.now player plan.now) }
{
    of_acceptance(plan::accept_plan(game, player, plan))
}

// The classes, and the order.
#[unsafe(no_mangle)]
pub extern "C" fn raskjomi_classes(
    game: &[u16],
    marks: &mut [u8],
    spare: &mut [u8],
    classes: &mut [u16],
) -> RaskjomiAnswer
    ensures { ClassesExport game.now marks.old spare.old classes.old result marks.new spare.new classes.new }
{
    of_classification(classes::write_classes(game, marks, spare, classes))
}

// The quotient game, the classes and the order.
#[unsafe(no_mangle)]
pub extern "C" fn raskjomi_quotient(
    game: &[u16],
    marks: &mut [u8],
    spare: &mut [u8],
    classes: &mut [u16],
    output: &mut [u16],
) -> RaskjomiAnswer
    ensures { TableExport quotient game.now marks.old spare.old classes.old output.old result marks.new spare.new classes.new output.new }
{
    of_tabulation(reduction::write_quotient(game, marks, spare, classes, output))
}

// The reduced game, the classes and the order.
#[unsafe(no_mangle)]
pub extern "C" fn raskjomi_reduce(
    game: &[u16],
    marks: &mut [u8],
    spare: &mut [u8],
    classes: &mut [u16],
    output: &mut [u16],
) -> RaskjomiAnswer
    ensures { TableExport reduced game.now marks.old spare.old classes.old output.old result marks.new spare.new classes.new output.new }
{
    of_tabulation(reduction::write_reduced(game, marks, spare, classes, output))
}

// A game by the seed: the table of n vertices with `degree` edges each and priorities below `priorities`.
#[unsafe(no_mangle)]
pub extern "C" fn raskjomi_seed(
    seed: u32,
    vertices: u32,
    degree: u32,
    priorities: u32,
    output: &mut [u16],
) -> RaskjomiAnswer
    ensures { SeedExport seed vertices degree priorities output.old result output.new }
{
    of_filling(table_seed::write_seeded(seed, vertices, degree, priorities, output))
}

// A game where the highest priority decides, as a table where the lowest does.
#[unsafe(no_mangle)]
pub extern "C" fn raskjomi_convert(game: &[u16], output: &mut [u16]) -> RaskjomiAnswer
    ensures { ConvertExport game.now output.old result output.new }
{
    of_filling(table_convert::write_lowest(game, output))
}
