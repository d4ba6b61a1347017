// The words of a solution of a game of any size: who wins at each vertex, and by which move. Nothing is written.
#![tactic(auto)]

mod searches;
mod tests;

ghost use Rattle.std.specs.Prelude.{◌≡◌, []};
ghost use Rattle.table.specs.Answers.{judge};
ghost use Rattle.table.specs.Acceptance.{acceptance_answer};
ghost use Rattle.large_table.specs.Reading.{LargeFormed};
ghost use Rattle.large_moves.specs.Moves.{move_rows};

use large_table::first_at_least;
use table::{NoCounts, Refusal, refused};

// A game of n vertices and m edges, and the words of a solution of it.
#[derive(Clone, Copy)]
pub struct Moves<'a> {
    pub game: &'a [u32],
    pub solution: &'a [u32],
    pub n: usize,
    pub m: usize,
}

// Judges a solution's words for a game that was read: 81 to 84 in order, each over the whole solution before the next. A part of
// `check_solution`; no host calls it.
pub fn judge_moves(game: &[u32], solution: &[u32]) -> Result<NoCounts, Refusal>
    requires { LargeFormed game.now }
    ensures { acceptance_answer result ≡ judge (move_rows game.now solution.now) [] }
{
    let n = game[0] as usize;
    let m = game[1] as usize;
    if solution.len() != 2 * n {
        return refused(81, solution.len());
    }
    let winner = first_at_least(solution, 2, 0, n);
    if winner < n {
        return refused(82, winner);
    }
    let moves = Moves {
        game,
        solution,
        n,
        m,
    };
    let stray = moves.first_stray();
    if stray < n {
        return refused(83, stray);
    }
    let leaving = moves.first_leaving();
    if leaving < m {
        return refused(84, leaving);
    }
    Ok(NoCounts {})
}
