// What is tested of one vertex, one place or one edge. No host calls these.
ghost use Rattle.std.specs.Prelude.{◌≡◌, ◌<◌, ltb};
ghost use Rattle.theory.specs.Logic.Bools.{◌&◌};
ghost use Rattle.large_moves.specs.Moves.{Lengths};
ghost use Rattle.large_solution.specs.Places.{is_misplaced, is_over, place_over, climbs_by, edge_climbs, Placed};

use crate::Places;

// Whether priority q is over p: above it, or the same and the winner's.
fn is_over(winner: u32, p: u32, q: u32) -> bool
    ensures { result ≡ is_over winner p q }
{
    if p < q {
        return true;
    }
    if p != q {
        return false;
    }
    p % 2 == winner
}

// Whether an edge from priority p to q and from place a to b goes beyond the run of a, or doesn't go down where it has to.
fn climbs_by(winner: u32, p: u32, q: u32, a: usize, b: usize, end: usize) -> bool
    ensures { result ≡ climbs_by winner p q a b end }
{
    if end < b {
        return true;
    }
    if b < a {
        return false;
    }
    if p % 2 == winner {
        return false;
    }
    p <= q
}

impl Places<'_> {
    // Whether another vertex stands at the place of v.
    pub fn is_misplaced(self, v: usize) -> bool
        requires { Placed self.certificate.now self.moves.n × (v < self.moves.n) }
        ensures { result ≡ is_misplaced self.entry.certificate.now self.entry.moves.n v }
    {
        let i = self.certificate[v] as usize;
        self.certificate[self.moves.n + i] as usize != v
    }

    // Whether j is a place, and over place i.
    pub fn is_in_run(self, i: usize, j: usize) -> bool
        requires { Lengths self.moves.game.now self.moves.solution.now self.moves.n self.moves.m × Placed self.certificate.now self.moves.n × (i < self.moves.n) }
        ensures { result ≡ ltb j self.entry.moves.n & place_over self.entry.moves.game.now self.entry.moves.solution.now self.entry.certificate.now self.entry.moves.n i j }
    {
        if self.moves.n <= j {
            return false;
        }
        let v = self.certificate[self.moves.n + i] as usize;
        let u = self.certificate[self.moves.n + j] as usize;
        is_over(
            self.moves.solution[v],
            self.moves.game[2 + v],
            self.moves.game[2 + u],
        )
    }

    // Whether edge j climbs by the places of its ends, as `climbs_by` has it, and is kept.
    pub fn edge_climbs(self, j: usize) -> bool
        requires { Lengths self.moves.game.now self.moves.solution.now self.moves.n self.moves.m × Placed self.certificate.now self.moves.n × (j < self.moves.m) }
        ensures { result ≡ edge_climbs self.entry.moves.game.now self.entry.moves.solution.now self.entry.certificate.now self.entry.moves.n self.entry.moves.m j }
    {
        let v = self.moves.game[2 + 2 * self.moves.n + j] as usize;
        let w = self.moves.game[2 + 2 * self.moves.n + self.moves.m + j] as usize;
        let a = self.certificate[v] as usize;
        let b = self.certificate[w] as usize;
        let end = self.certificate[2 * self.moves.n + a] as usize;
        let p = self.moves.game[2 + v];
        let q = self.moves.game[2 + w];
        if !climbs_by(self.moves.solution[v], p, q, a, b, end) {
            return false;
        }
        self.moves.keeps_edge(v, j)
    }
}
