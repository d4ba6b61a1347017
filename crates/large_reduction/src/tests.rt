// What is tested of one vertex or one edge of the reduced game. No host calls these.
ghost use Rattle.std.specs.Prelude.{◌≡◌, ◌<◌};
ghost use Rattle.large_table.specs.Words.{TableOf};
ghost use Rattle.large_images.specs.Images.{Classes};
ghost use Rattle.large_reduction.specs.ReductionCall.{edge_descends, priority_differs};

use large_images::Merge;

// Whether edge e has a lower source than the edge before it.
pub fn edge_descends(merge: Merge, e: usize) -> bool
    requires { TableOf merge.reduced.now merge.k merge.q × (e < merge.q) }
    ensures { result ≡ edge_descends merge.entry.reduced.now merge.entry.k e }
{
    if e == 0 {
        return false;
    }
    merge.reduced[2 + 2 * merge.k + e] < merge.reduced[1 + 2 * merge.k + e]
}

// Whether v and its class have different priorities.
pub fn priority_differs(merge: Merge, v: usize) -> bool
    requires { TableOf merge.game.now merge.n merge.m × TableOf merge.reduced.now merge.k merge.q × Classes merge.classes.now merge.n merge.k × (v < merge.n) }
    ensures { result ≡ priority_differs merge.entry.game.now merge.entry.reduced.now merge.entry.classes.now v }
{
    let d = merge.classes[v] as usize;
    merge.game[2 + v] != merge.reduced[2 + d]
}
