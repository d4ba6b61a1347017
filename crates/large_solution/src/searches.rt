// The searches for refusals 87 to 89. No host calls them.
#![tactic(auto, using(large_table::proofs::Searches::search_steps))]

ghost use Rattle.std.specs.Prelude.{◌≡◌};
ghost use Rattle.theory.specs.Logic.Range.{first};
ghost use Rattle.large_moves.specs.Moves.{Lengths};
ghost use Rattle.large_solution.specs.Places.{is_misplaced, run_fails, from_last, edge_climbs, Placed};

use crate::Places;

impl Places<'_> {
    // 87: the first vertex that doesn't stand at its place, n where there is none.
    pub fn first_misplaced(self) -> usize
        requires { Placed self.certificate.now self.moves.n }
        ensures { result ≡ first (is_misplaced self.entry.certificate.now self.entry.moves.n) 0 self.entry.moves.n }
    {
        for v in 0..self.moves.n {
            if self.is_misplaced(v) {
                return v;
            }
        }
        self.moves.n
    }

    // 88, from the last place down: how many places pass before one whose named run isn't its longest, n where all pass. From i + 1 on, j jumps
    // over the runs of places that are over i; these runs are right, since their places passed before. Longest runs nest, so each place is jumped
    // from once at most, and with a step from each i to the next the loop takes at most 2n steps, whatever the certificate is: its measure is 2n at
    // the start (`steps_start`), and every step lowers it (`jump_falls`, `next_falls`).
    pub fn first_bad_run(self) -> usize
        requires { Lengths self.moves.game.now self.moves.solution.now self.moves.n self.moves.m × Placed self.certificate.now self.moves.n }
        ensures { result ≡ first (λ k. run_fails self.entry.moves.game.now self.entry.moves.solution.now self.entry.certificate.now self.entry.moves.n (from_last self.entry.moves.n k)) 0 self.entry.moves.n }
    {
        let mut k = 0;
        let mut j = self.moves.n;
        while k < self.moves.n {
            let i = self.moves.n - 1 - k;
            if self.is_in_run(i, j) {
                j = self.certificate[2 * self.moves.n + j] as usize + 1;
            } else {
                if self.certificate[2 * self.moves.n + i] as usize + 1 != j {
                    return k;
                }
                j = i;
                k += 1;
            }
        }
        k
    }

    // 89: the first kept edge that doesn't go down where it has to, or goes up too far; m where there is none.
    pub fn first_climb(self) -> usize
        requires { Lengths self.moves.game.now self.moves.solution.now self.moves.n self.moves.m × Placed self.certificate.now self.moves.n }
        ensures { result ≡ first (edge_climbs self.entry.moves.game.now self.entry.moves.solution.now self.entry.certificate.now self.entry.moves.n self.entry.moves.m) 0 self.entry.moves.m }
    {
        for j in 0..self.moves.m {
            if self.edge_climbs(j) {
                return j;
            }
        }
        self.moves.m
    }
}
