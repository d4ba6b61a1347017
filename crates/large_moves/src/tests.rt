// What is tested of one vertex or one edge. No host calls these.
ghost use Rattle.std.specs.Prelude.{◌≡◌, ◌<◌};
ghost use Rattle.large_moves.specs.Moves.{move_strays, keeps_edge, edge_leaves, Lengths};

use crate::Moves;

impl Moves<'_> {
    // Whether the move of v isn't an edge of v.
    pub fn move_strays(self, v: usize) -> bool
        requires { Lengths self.game.now self.solution.now self.n self.m × (v < self.n) }
        ensures { result ≡ move_strays self.entry.game.now self.entry.solution.now self.entry.n self.entry.m v }
    {
        let e = self.solution[self.n + v] as usize;
        if self.m <= e {
            return true;
        }
        self.game[2 + 2 * self.n + e] as usize != v
    }

    // Whether edge j of v is kept: any edge where the winner doesn't own v, the move of v where it does.
    pub fn keeps_edge(self, v: usize, j: usize) -> bool
        requires { Lengths self.game.now self.solution.now self.n self.m × (v < self.n) }
        ensures { result ≡ keeps_edge self.entry.game.now self.entry.solution.now self.entry.n v j }
    {
        if self.solution[v] != self.game[2 + self.n + v] {
            return true;
        }
        self.solution[self.n + v] as usize == j
    }

    // Whether edge j is kept and leads to a vertex of the other winner.
    pub fn edge_leaves(self, j: usize) -> bool
        requires { Lengths self.game.now self.solution.now self.n self.m × (j < self.m) }
        ensures { result ≡ edge_leaves self.entry.game.now self.entry.solution.now self.entry.n self.entry.m j }
    {
        let v = self.game[2 + 2 * self.n + j] as usize;
        let w = self.game[2 + 2 * self.n + self.m + j] as usize;
        if self.solution[w] == self.solution[v] {
            return false;
        }
        self.keeps_edge(v, j)
    }
}
