// What answers a move where a plan is carried: the links of the old plan, each position's in a chain. Parts of the calls that carry a plan;
// no host calls these.
#![tactic(auto)]

ghost use Rattle.std.specs.Prelude.{◌≡◌, ℕ, ◌≤◌, ◌<◌, length, get_or};
ghost use Rattle.std.proofs.Math.Bool.{So};
ghost use Rattle.theory.specs.Logic.Range.{first};
ghost use Rattle.theory.specs.Games.Game.{own};
ghost use Rattle.theory.specs.Classes.Reduction.{no_better};
ghost use Rattle.table.specs.Limits.{vertex_limit, pair_words};
ghost use Rattle.table.specs.Table.{vertex_count, player_of, game_of};
ghost use Rattle.table.specs.WellFormed.{WellFormed};
ghost use Rattle.table.specs.Flags.{flagged};
ghost use Rattle.marks.specs.Marks.{marks_length, relation};
ghost use Rattle.plan_links.specs.PlanTable.{position_count, link_count, link_source, link_target};
ghost use Rattle.plan_links.specs.PlanFormed.{PlanSized};
ghost use Rattle.carry_replies.specs.Replies.{LinkChains, IsSeated, IsLinked, IsReadable, needed, link_to, reply_to};

use marks::packed::is_marked;
use table::flags::is_edge;
use table::slices;
use words::members::next_member;

// A plan that is carried: the game, the player, the plan, the vertex as which each of its positions compares, and the marks of the game's order.
#[derive(Clone, Copy)]
pub struct SeatedPlan<'a> {
    pub game: &'a [u16],
    pub player: u32,
    pub plan: &'a [u16],
    pub seats: &'a [u16],
    pub marks: &'a [u8],
}

// What a reply is read from: the plan that is carried, the flags of the game's edges, and the links of each position in a chain.
#[derive(Clone, Copy)]
pub struct Replies<'a> {
    pub seated: SeatedPlan<'a>,
    pub edges: &'a [u64],
    pub firsts: &'a [u16],
    pub follow: &'a [u16],
}

// Whether vertex v is the player's.
pub fn owns(game: &[u16], player: u32, v: usize) -> bool
    requires { WellFormed game.now × (player ≤ 1) × (v < vertex_count game.now) }
    ensures { result ≡ own (game_of game.now) (player_of player) v }
{
    let n = game[0] as usize;
    game[2 + n + v] as u32 == player
}

// Whether x is no better than w for the player: x below w for Even, w below x for Odd.
pub fn no_better(marks: &[u8], n: usize, player: u32, x: usize, w: usize) -> bool
    requires { (x < n) × (w < n) × (n ≤ vertex_limit) × (marks_length n ≤ length marks.now) }
    ensures { result ≡ no_better (player_of player) (relation n marks.now) x w }
{
    if player == 0 {
        return is_marked(marks, n, x, w);
    }
    is_marked(marks, n, w, x)
}

// Chains the links of each position, from the last link back.
pub fn chain_links(plan: &[u16], firsts: &mut [u16], follow: &mut [u16])
    requires plan_sized { PlanSized plan.now }
    requires by_index { (k : ℕ) → k < link_count plan.now → link_source plan.now k < position_count plan.now }
    requires plan_in_bounds { (position_count plan.now ≤ length firsts.old) × (link_count plan.now ≤ length follow.old) }
    ensures { LinkChains (link_source plan.now) (link_count plan.now) (position_count plan.now) firsts.new follow.new }
{
    let p = plan[0] as usize;
    let l = plan[1] as usize;
    slices::fill(firsts, 0, p, plan[1]);
    for k in (0..l).rev() {
        let i = usize::from(plan[2 + p + k]);
        follow[k] = firsts[i];
        firsts[i] = k as u16;
    }
}

impl SeatedPlan<'_> {
    // Whether link k leads to a position that keeps the order where the new vertex is w.
    fn link_keeps(&self, k: usize, w: usize) -> bool
        requires seated { IsSeated self.now }
        requires k_bound { (k < link_count self.now.plan.now) × (w < vertex_count self.now.game.now) }
        ensures { let s = self.now in result ≡ needed s.game.now s.player (get_or s.seats.now (link_target s.plan.now k) 0) w }
    {
        let n = self.game[0] as usize;
        let p = self.plan[0] as usize;
        let l = self.plan[1] as usize;
        let j = self.plan[2 + p + l + k] as usize;
        no_better(self.marks, n, self.player, self.seats[j] as usize, w)
    }
}

impl Replies<'_> {
    // The link followed from position i where the new vertex is w: the first that keeps the order; where i is at the player's the first link or
    // none. The number of links where there is none.
    fn answer(&self, i: usize, w: usize) -> usize
        requires linked { IsLinked self.now }
        requires i_bound { let s = self.now.seated in (i < position_count s.plan.now) × (w < vertex_count s.game.now) }
        ensures { let s = self.now.seated in result ≡ link_to s.game.now s.player s.plan.now s.seats.now i w }
    {
        let seated = &self.seated;
        let l = seated.plan[1] as usize;
        let lone = owns(seated.game, seated.player, seated.seats[i] as usize);
        let mut k = self.firsts[i] as usize;
        while k < l {
            if seated.link_keeps(k, w) {
                return k;
            }
            if lone {
                return l;
            }
            k = self.follow[k] as usize;
        }
        l
    }

    // The position that answers a move to w along an edge at position i; the number of positions where none does.
    fn reply_along(&self, i: usize, w: usize) -> usize
        requires linked { IsLinked self.now }
        requires i_bound { let s = self.now.seated in (i < position_count s.plan.now) × (w < vertex_count s.game.now) }
        ensures { let s = self.now.seated in
            (u : ℕ) → So ((game_of s.game.now).edge u w) → result ≡ reply_to s.game.now s.player s.plan.now s.seats.now i u w }
    {
        let plan = self.seated.plan;
        let p = plan[0] as usize;
        let l = plan[1] as usize;
        let k = self.answer(i, w);
        if k < l {
            return plan[2 + p + l + k] as usize;
        }
        p
    }

    // The position that answers the move from u to w at position i; the number of positions where none does.
    pub fn reply(&self, i: usize, u: usize, w: usize) -> usize
        requires readable { IsReadable self.now }
        requires i_bound { let s = self.now.seated in
            (i < position_count s.plan.now) × (u < vertex_count s.game.now) × (w < vertex_count s.game.now) }
        ensures { let s = self.now.seated in result ≡ reply_to s.game.now s.player s.plan.now s.seats.now i u w }
    {
        let n = self.seated.game[0] as usize;
        let p = self.seated.plan[0] as usize;
        if is_edge(self.edges, n, u, w) {
            return self.reply_along(i, w);
        }
        p
    }
}

// The first successor of u from `from` on, by the flags of the edges; n where there is none.
pub fn next_successor(edges: &[u64], n: usize, u: usize, from: usize) -> usize
    requires { (u < n) × (from ≤ n) × (n ≤ vertex_limit) × (pair_words ≤ length edges.now) }
    ensures { result ≡ first (flagged n edges.now u) from n }
{
    let base = u * n;
    next_member(edges, base + from, base + n) - base
}
