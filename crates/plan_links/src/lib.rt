// The words of a plan: refusals 12 to 14, and an index of its links. Parts of the plan acceptor; no host calls these.
#![tactic(auto)]

ghost use Rattle.std.specs.Prelude.{◌≡◌, cond, ℕ, ◌+◌, ◌≤◌, ◌<◌, ltb, length, get_or};
ghost use Rattle.table.specs.Limits.{position_limit};
ghost use Rattle.table.specs.Table.{vertex_count};
ghost use Rattle.table.specs.WellFormed.{WellFormed};
ghost use Rattle.plan_links.specs.PlanTable.{position_count, link_count, vertex_at, link_source, link_target};
ghost use Rattle.plan_links.specs.Refusals.{bad_size, first_beyond, strays, first_stray};
ghost use Rattle.plan_links.specs.PlanFormed.{PlanSized, PlanFormed, Followable};
ghost use Rattle.plan_links.specs.LinkIndex.{LinkIndex};

use table::flags::{flag_edges, is_edge};
use table::limits::{LINKS, PAIR_WORDS, POSITIONS};

// 12: under 2 words, p or l out of limits, or length not 2 + p + 2l.
pub fn bad_size(plan: &[u16]) -> bool
    ensures { result ≡ bad_size plan.now }
{
    let len = plan.len();
    if len < 2 {
        return true;
    }
    let p = plan[0] as usize;
    let l = plan[1] as usize;
    if p == 0 {
        return true;
    }
    if POSITIONS < p {
        return true;
    }
    if LINKS < l {
        return true;
    }
    len != 2 + p + 2 * l
}

// The limit of word k: n for the vertex of a position, p for a link end.
fn limit(k: usize, p: usize, n: usize) -> usize
    requires { p ≤ position_limit }
    ensures { result ≡ cond (ltb k (2 + p)) n p }
{
    if k < 2 + p { n } else { p }
}

// 13: the first word that isn't below its limit; the plan's length where there is none.
pub fn first_beyond(plan: &[u16], n: usize) -> usize
    requires { PlanSized plan.now }
    ensures { result ≡ first_beyond n plan.now }
{
    let p = plan[0] as usize;
    for k in 2..plan.len() {
        if limit(k, p, n) <= usize::from(plan[k]) {
            return k;
        }
    }
    plan.len()
}

// The vertex of position i.
pub fn vertex_of(plan: &[u16], i: usize) -> usize
    requires { PlanSized plan.now × (i < position_count plan.now) }
    ensures { result ≡ vertex_at plan.now i }
{
    usize::from(plan[2 + i])
}

fn source_of(plan: &[u16], k: usize) -> usize
    requires { PlanSized plan.now × (k < link_count plan.now) }
    ensures { result ≡ link_source plan.now k }
{
    let p = plan[0] as usize;
    usize::from(plan[2 + p + k])
}

fn target_of(plan: &[u16], k: usize) -> usize
    requires { PlanSized plan.now × (k < link_count plan.now) }
    ensures { result ≡ link_target plan.now k }
{
    let p = plan[0] as usize;
    let l = plan[1] as usize;
    usize::from(plan[2 + p + l + k])
}

// Whether link k follows no edge: one look at the flags of the edges.
fn strays(edges: &[u64], game: &[u16], plan: &[u16], k: usize) -> bool
    requires { Followable game.now plan.now edges.now × (k < link_count plan.now) }
    ensures { result ≡ strays game.now plan.now k }
{
    let n = game[0] as usize;
    let v = vertex_of(plan, source_of(plan, k));
    let x = vertex_of(plan, target_of(plan, k));
    !is_edge(edges, n, v, x)
}

fn first_straying(edges: &[u64], game: &[u16], plan: &[u16]) -> usize
    requires { Followable game.now plan.now edges.now }
    ensures { result ≡ first_stray game.now plan.now }
{
    let l = plan[1] as usize;
    for k in 0..l {
        if strays(edges, game, plan, k) {
            return k;
        }
    }
    l
}

// 14: the first link along no edge; the number of links where there is none. Flags of the edges are in a local array of 32,768 bytes.
pub fn first_stray(game: &[u16], plan: &[u16]) -> usize
    requires { WellFormed game.now × PlanFormed (vertex_count game.now) plan.now }
    ensures { result ≡ first_stray game.now plan.now }
{
    let mut edges = [0u64; PAIR_WORDS];
    flag_edges(game, game[0] as usize, game[1] as usize, &mut edges);
    first_straying(&edges, game, plan)
}

// The index of a plan's links, written over zeros.
pub fn index_links(plan: &[u16], starts: &mut [u16], targets: &mut [u16])
    requires by_index { (n : ℕ) × PlanFormed n plan.now }
    requires plan_in_bounds { (position_count plan.now < length starts.old) × (link_count plan.now ≤ length targets.old) }
    requires by_index_2 { (i : ℕ) → get_or starts.old i 0 ≡ 0 }
    ensures { LinkIndex plan.now starts.new targets.new }
{
    let p = plan[0] as usize;
    let l = plan[1] as usize;
    let sources = 2 + p;
    index::build(plan, sources, sources + l, l, p, starts, targets);
}
