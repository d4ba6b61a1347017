// The searches for refusals 97 and 100. No host calls them.
#![tactic(auto, using(large_table::proofs::Searches::search_steps))]

ghost use Rattle.std.specs.Prelude.{◌≡◌};
ghost use Rattle.theory.specs.Logic.Range.{first};
ghost use Rattle.large_table.specs.Words.{TableOf};
ghost use Rattle.large_images.specs.Images.{Classes};
ghost use Rattle.large_reduction.specs.ReductionCall.{edge_descends, priority_differs};

use crate::tests;
use large_images::Merge;

// 97: the first edge of the reduced game with a lower source than the one before it.
pub fn first_descent(merge: Merge) -> usize
    requires { TableOf merge.reduced.now merge.k merge.q }
    ensures { result ≡ first (edge_descends merge.entry.reduced.now merge.entry.k) 0 merge.entry.q }
{
    for e in 0..merge.q {
        if tests::edge_descends(merge, e) {
            return e;
        }
    }
    merge.q
}

// 100: the first vertex whose class has another priority.
pub fn first_different(merge: Merge) -> usize
    requires { TableOf merge.game.now merge.n merge.m × TableOf merge.reduced.now merge.k merge.q × Classes merge.classes.now merge.n merge.k }
    ensures { result ≡ first (priority_differs merge.entry.game.now merge.entry.reduced.now merge.entry.classes.now) 0 merge.entry.n }
{
    for v in 0..merge.n {
        if tests::priority_differs(merge, v) {
            return v;
        }
    }
    merge.n
}
