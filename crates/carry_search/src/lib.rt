// Breadth-first search over pairs of an old position and a vertex, in work memory. A part of the calls that carry a plan; no host calls it.
#![tactic(auto)]

mod found;
pub mod places;

ghost use Rattle.std.specs.Prelude.{◌≡◌, ◌≤◌, ◌<◌};
ghost use Rattle.table.specs.Limits.{position_limit};
ghost use Rattle.table.specs.Table.{vertex_count};
ghost use Rattle.table.specs.WellFormed.{WellFormed};
ghost use Rattle.plan_links.specs.PlanTable.{position_count};
ghost use Rattle.carry_replies.specs.Replies.{IsReadable};
ghost use Rattle.carry_search.specs.SearchMemory.{SearchRoom, Within};
ghost use Rattle.carry_search.specs.Work.{memory_in};
ghost use Rattle.carry_search.specs.Search.{table_found, Fresh, one_pair, Started, Expandable, SearchResult};
ghost use Rattle.carry_search.specs.Search.{most_links, PairExpanded, MovedTo};

use crate::found::{add_pair, visit};
use crate::places::{OLDS_AT, VERTICES_AT};
use carry_replies::{Replies, next_successor, owns};
use table::limits::{LINKS, POSITIONS};

// How many pairs and links are found.
#[derive(Clone, Copy)]
pub struct Counts {
    pub pairs: usize,
    pub links: usize,
}

// All pairs found from (0, w), and the links between their numbers. It stops where a plan could hold no more.
pub fn find_pairs(replies: &Replies<'_>, work: &mut [u16], w: usize) -> Counts
    requires readable { IsReadable replies.now }
    requires w_bound { (w < vertex_count replies.now.seated.game.now) × Fresh work.old }
    ensures { let s = replies.now.seated in SearchResult (table_found s.game.now s.player s.plan.now s.seats.now w) (memory_in work.new result) }
{
    add_pair(work, 0, 0, w as u16);
    run(replies, work, w)
}

// The search from pair 0, which is (0, w), until all pairs are done or a plan could hold no more.
fn run(replies: &Replies<'_>, work: &mut [u16], w: usize) -> Counts
    requires readable { IsReadable replies.now }
    requires w_bound { let s = replies.now.seated in
        (w < vertex_count s.game.now) × Started (position_count s.plan.now) w (memory_in work.old one_pair) }
    ensures { let s = replies.now.seated in SearchResult (table_found s.game.now s.player s.plan.now s.seats.now w) (memory_in work.new result) }
{
    let mut counts = Counts { pairs: 1, links: 0 };
    let mut k = 0;
    while k < counts.pairs {
        counts = expand(replies, work, counts, k);
        if POSITIONS < counts.pairs || LINKS < counts.links {
            return counts;
        }
        k += 1;
    }
    counts
}

// How many links there are at most before a move from vertex u: where it is the player's, as many as before its moves, so that it has one; else
// as many as a plan may have.
fn most_links(game: &[u16], player: u32, u: usize, links: usize) -> usize
    requires { WellFormed game.now × (player ≤ 1) × (u < vertex_count game.now) }
    ensures { result ≡ most_links game.now player u links }
{
    if owns(game, player, u) {
        return links;
    }
    LINKS
}

// The moves of pair k to the vertices that are answered, ascending: where its vertex is the player's the first one, else all, until a plan could
// hold no more.
fn expand(replies: &Replies<'_>, work: &mut [u16], counts: Counts, k: usize) -> Counts
    requires readable { IsReadable replies.now }
    requires expandable { let s = replies.now.seated in Expandable (position_count s.plan.now) (vertex_count s.game.now) k work.old counts }
    ensures { let s = replies.now.seated in PairExpanded s.game.now s.player s.plan.now s.seats.now k work.old counts work.new result }
{
    let seated = &replies.seated;
    let n = seated.game[0] as usize;
    let i = work[OLDS_AT + k] as usize;
    let u = work[VERTICES_AT + k] as usize;
    let most = most_links(seated.game, seated.player, u, counts.links);
    let mut found = counts;
    let mut w = next_successor(replies.edges, n, u, 0);
    while w < n {
        if POSITIONS < found.pairs || most < found.links {
            return found;
        }
        found = step(replies, work, found, k, i, u, w);
        w = next_successor(replies.edges, n, u, w + 1);
    }
    found
}

// The move to w of pair k, which is (i, u), if there is one.
fn step(
    replies: &Replies<'_>,
    work: &mut [u16],
    counts: Counts,
    k: usize,
    i: usize,
    u: usize,
    w: usize,
) -> Counts
    requires readable { IsReadable replies.now }
    requires search_room { SearchRoom (position_count replies.now.seated.plan.now) (memory_in work.old counts)
        × Within counts.pairs counts.links × (k ≤ position_limit) }
    requires i_bound { let s = replies.now.seated in
        (i < position_count s.plan.now) × (u < vertex_count s.game.now) × (w < vertex_count s.game.now) }
    ensures { let s = replies.now.seated in MovedTo s.game.now s.player s.plan.now s.seats.now k i u w work.old counts work.new result }
{
    let p = replies.seated.plan[0] as usize;
    let j = replies.reply(i, u, w);
    if j < p {
        return visit(work, counts, p, k, j, w as u16);
    }
    counts
}
