// A part of the search over pairs; no host calls it.
// The pairs found, numbered as found, and the links between their numbers.
ghost use Rattle.std.specs.Prelude.{◌≡◌, [], ◌∷◌, ◌≤◌, ◌<◌, length};
ghost use Rattle.theory.specs.Carry.BreadthFirst.{number_of};
ghost use Rattle.table.specs.Limits.{position_limit};
ghost use Rattle.carry_search.specs.Chains.{chain_of};
ghost use Rattle.carry_search.specs.SearchMemory.{found_in, SearchRoom, Within, Moved};
ghost use Rattle.carry_search.specs.Work.{work_length, memory_in, pair_stored};

use crate::Counts;
use crate::places::{HEADS_AT, NEXTS_AT, OLDS_AT, SOURCES_AT, TARGETS_AT, VERTICES_AT};
use table::limits::POSITIONS;

// The hash of the pair (i, u), which tells its chain.
fn chain_of(i: usize, u: u16) -> usize
    requires { i < position_limit }
    ensures { (result ≡ chain_of i u) × (result < position_limit) }
{
    (i + 2531 * (u as usize)) % POSITIONS
}

// The number of the pair (i, u), or how many there are where it isn't found yet. It walks along its chain alone, in which the vertex tells
// the pair.
fn number_of(work: &[u16], counts: Counts, p: usize, i: usize, u: u16) -> usize
    requires { SearchRoom p (memory_in work.now counts) × (i < p) }
    ensures { result ≡ number_of (found_in (memory_in work.now counts)).pairs i u }
{
    let mut c = work[HEADS_AT + chain_of(i, u)] as usize;
    while 0 < c {
        let k = c - 1;
        if work[VERTICES_AT + k] == u {
            return k;
        }
        c = work[NEXTS_AT + k] as usize;
    }
    counts.pairs
}

// A new pair, at the head of its chain.
pub fn add_pair(work: &mut [u16], pairs: usize, i: usize, u: u16)
    requires { (pairs ≤ position_limit) × (i < position_limit) × (work_length ≤ length work.old) }
    ensures { work.new ≡ pair_stored work.old pairs i u }
{
    let chain = chain_of(i, u);
    let head = work[HEADS_AT + chain];
    work[OLDS_AT + pairs] = i as u16;
    work[VERTICES_AT + pairs] = u;
    work[NEXTS_AT + pairs] = head;
    work[HEADS_AT + chain] = (pairs + 1) as u16;
}

// A move from pair k to the pair (j, w): a link to its number, which it gets now where it is new.
pub fn visit(work: &mut [u16], counts: Counts, p: usize, k: usize, j: usize, w: u16) -> Counts
    requires search_room { SearchRoom p (memory_in work.old counts) × Within counts.pairs counts.links }
    requires k_le_position_limit { (k ≤ position_limit) × (j < p) }
    ensures { Moved k ((j, w) ∷ []) p (memory_in work.old counts) (memory_in work.new result) }
{
    let Counts { pairs, links } = counts;
    let number = number_of(work, counts, p, j, w);
    work[SOURCES_AT + links] = k as u16;
    work[TARGETS_AT + links] = number as u16;
    if number < pairs {
        return Counts {
            links: links + 1,
            ..counts
        };
    }
    add_pair(work, pairs, j, w);
    Counts {
        pairs: pairs + 1,
        links: links + 1,
    }
}
