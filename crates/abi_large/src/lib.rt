// The exports about games of any size, in the form of those of `abi`.
#![tactic(auto)]

ghost use Rattle.std.specs.Prelude.{◌≡◌};
ghost use Rattle.large_table.specs.Reading.{large_answer};
ghost use Rattle.large_solution.specs.Places.{solution_answer};
ghost use Rattle.large_reduction.specs.ReductionCall.{reduction_answer};
ghost use Rattle.abi_answer.specs.Fields.{accept_fields, fill_fields};

use abi_answer::{RaskjomiAnswer, of_acceptance, of_filling};

// The reader of large games.
#[unsafe(no_mangle)]
pub extern "C" fn raskjomi_large_read(game: &[u32]) -> RaskjomiAnswer
    ensures { result ≡ fill_fields (large_answer game.now) }
{
    of_filling(large_table::read(game))
}

// The check of a large game's solution by a certificate.
#[unsafe(no_mangle)]
pub extern "C" fn raskjomi_large_solution(
    game: &[u32],
    solution: &[u32],
    certificate: &[u32],
) -> RaskjomiAnswer
    ensures { result ≡ accept_fields (solution_answer game.now solution.now certificate.now) }
{
    of_acceptance(large_solution::check_solution(game, solution, certificate))
}

// The check of a large game's reduction by a certificate.
#[unsafe(no_mangle)]
pub extern "C" fn raskjomi_large_reduction(
    game: &[u32],
    reduced: &[u32],
    classes: &[u32],
    certificate: &[u32],
) -> RaskjomiAnswer
    ensures { result ≡ accept_fields (reduction_answer game.now reduced.now classes.now certificate.now) }
{
    of_acceptance(large_reduction::check_reduction(game, reduced, classes, certificate))
}
