// The exports that carry a plan to another vertex, in the form of those of `abi`.
#![tactic(auto)]

ghost use Rattle.abi_answer.specs.Exports.{CarryExport, CarryClassExport};

use abi_answer::{RaskjomiAnswer, of_carrying, of_class_carrying};

// A plan on the game, carried to the vertex, into output; and the order.
#[unsafe(no_mangle)]
pub extern "C" fn raskjomi_carry(
    game: &[u16],
    player: u32,
    plan: &[u16],
    vertex: u32,
    marks: &mut [u8],
    spare: &mut [u8],
    output: &mut [u16],
) -> RaskjomiAnswer
    ensures { CarryExport game.now player plan.now vertex marks.old spare.old output.old result marks.new spare.new output.new }
{
    of_carrying(carry::carry_plan(game, player, plan, vertex, marks, spare, output))
}

// A plan on the reduced game, carried to the vertex, into output; the reduced game, the classes and the order.
#[unsafe(no_mangle)]
pub extern "C" fn raskjomi_carry_class(
    game: &[u16],
    player: u32,
    plan: &[u16],
    vertex: u32,
    marks: &mut [u8],
    spare: &mut [u8],
    classes: &mut [u16],
    reduction: &mut [u16],
    output: &mut [u16],
) -> RaskjomiAnswer
    ensures { CarryClassExport game.now player plan.now vertex marks.old spare.old classes.old reduction.old output.old result
        marks.new spare.new classes.new reduction.new output.new }
{
    of_class_carrying(carry::carry_class_plan(
        game, player, plan, vertex, marks, spare, classes, reduction, output,
    ))
}
