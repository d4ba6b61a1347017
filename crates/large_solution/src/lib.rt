// A solution of a game of any size, judged with a certificate. Nothing is written, and no memory is used besides the caller's words. No loop
// stands within another. They take at most 9n + 4m steps in all, for every input: the reader's n + 2m, those of the solution's words 2n + m, and
// those of the certificate's 3n, n, 2n (`Places::first_bad_run`) and m. Each loop goes over a range of as many numbers, except the one of
// `first_bad_run`: its measure is 2n at the start, and every step lowers it.
#![tactic(auto)]

mod searches;
mod tests;

ghost use Rattle.std.specs.Prelude.{◌≡◌, []};
ghost use Rattle.table.specs.Answers.{judge};
ghost use Rattle.table.specs.Acceptance.{acceptance_answer};
ghost use Rattle.table.specs.Table.{vertex_count, table_edges};
ghost use Rattle.large_moves.specs.Moves.{Lengths};
ghost use Rattle.large_solution.specs.Places.{place_rows, solution_answer};

use large_moves::{Moves, judge_moves};
use large_table::{first_at_least, read};
use table::{NoCounts, Refusal, refused};

// The words of a solution of a game, and the certificate.
#[derive(Clone, Copy)]
pub struct Places<'a> {
    pub moves: Moves<'a>,
    pub certificate: &'a [u32],
}

// Judges a game, a solution of it and a certificate: the reader's refusals, then 81 to 89 in order, each over the whole input before the next.
// Accepted only if every vertex has a successor and the winner named at each has a winning plan from it.
pub fn check_solution(
    game: &[u32],
    solution: &[u32],
    certificate: &[u32],
) -> Result<NoCounts, Refusal>
    ensures { acceptance_answer result ≡ solution_answer game.now solution.now certificate.now }
{
    read(game)?;
    judge_moves(game, solution)?;
    judge_places(game, solution, certificate)
}

// 85 to 89, for a game and a solution's words that were judged.
fn judge_places(game: &[u32], solution: &[u32], certificate: &[u32]) -> Result<NoCounts, Refusal>
    requires { Lengths game.now solution.now (vertex_count game.now) (table_edges game.now) }
    ensures { acceptance_answer result ≡ judge (place_rows game.now solution.now certificate.now) [] }
{
    let n = game[0] as usize;
    let m = game[1] as usize;
    if certificate.len() != 3 * n {
        return refused(85, certificate.len());
    }
    let beyond = first_at_least(certificate, n, 0, 3 * n);
    if beyond < 3 * n {
        return refused(86, beyond);
    }
    let places = Places {
        moves: Moves {
            game,
            solution,
            n,
            m,
        },
        certificate,
    };
    let misplaced = places.first_misplaced();
    if misplaced < n {
        return refused(87, misplaced);
    }
    let run = places.first_bad_run();
    if run < n {
        return refused(88, n - 1 - run);
    }
    let climbs = places.first_climb();
    if climbs < m {
        return refused(89, climbs);
    }
    Ok(NoCounts {})
}
