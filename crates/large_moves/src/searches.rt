// The searches for refusals 83 and 84. No host calls them.
#![tactic(auto, using(large_table::proofs::Searches::search_steps))]

ghost use Rattle.std.specs.Prelude.{◌≡◌};
ghost use Rattle.theory.specs.Logic.Range.{first};
ghost use Rattle.large_moves.specs.Moves.{move_strays, edge_leaves, Lengths};

use crate::Moves;

impl Moves<'_> {
    // 83: the first vertex whose move isn't an edge of its own, n where there is none.
    pub fn first_stray(self) -> usize
        requires { Lengths self.game.now self.solution.now self.n self.m }
        ensures { result ≡ first (move_strays self.entry.game.now self.entry.solution.now self.entry.n self.entry.m) 0 self.entry.n }
    {
        for v in 0..self.n {
            if self.move_strays(v) {
                return v;
            }
        }
        self.n
    }

    // 84: the first kept edge that leads to a vertex of the other winner, m where there is none.
    pub fn first_leaving(self) -> usize
        requires { Lengths self.game.now self.solution.now self.n self.m }
        ensures { result ≡ first (edge_leaves self.entry.game.now self.entry.solution.now self.entry.n self.entry.m) 0 self.entry.m }
    {
        for j in 0..self.m {
            if self.edge_leaves(j) {
                return j;
            }
        }
        self.m
    }
}
