// The exports about governed bisimulations, in the form of those of `abi`.
#![tactic(auto)]

ghost use Rattle.std.specs.Prelude.{◌≡◌};
ghost use Rattle.governed.specs.GovernedCall.{governed_answer};
ghost use Rattle.abi_answer.specs.Fields.{accept_fields};
ghost use Rattle.abi_answer.specs.Exports.{GovernedExport, GovernedClassesExport};

use abi_answer::{RaskjomiAnswer, of_acceptance, of_classification, of_ordering};

// The largest governed bisimulation, into marks and spare.
#[unsafe(no_mangle)]
pub extern "C" fn raskjomi_governed_order(
    game: &[u16],
    marks: &mut [u8],
    spare: &mut [u8],
) -> RaskjomiAnswer
    ensures { GovernedExport game.now marks.old spare.old result marks.new spare.new }
{
    of_ordering(governed::write_governed(game, marks, spare))
}

// The acceptor of governed bisimulations.
#[unsafe(no_mangle)]
pub extern "C" fn raskjomi_accept_governed(game: &[u16], marks: &[u8]) -> RaskjomiAnswer
    ensures { result ≡ accept_fields (governed_answer game.now marks.now) }
{
    of_acceptance(governed::accept_governed(game, marks))
}

// The classes of the largest governed bisimulation, and it.
#[unsafe(no_mangle)]
pub extern "C" fn raskjomi_governed_classes(
    game: &[u16],
    marks: &mut [u8],
    spare: &mut [u8],
    classes: &mut [u16],
) -> RaskjomiAnswer
    ensures { GovernedClassesExport game.now marks.old spare.old classes.old result marks.new spare.new classes.new }
{
    of_classification(governed::write_governed_classes(game, marks, spare, classes))
}
