// Refusal 15: positions that lack a needed link. A part of the plan acceptor; no host calls it.
// `edge_starts` and `edge_targets` index the game's edges, `starts` and `targets` the links.
ghost use Rattle.std.specs.Prelude.{◌≡◌, ℕ, ◌+◌, ◌≤◌, ◌<◌, length, get_or};
ghost use Rattle.table.specs.Limits.{vertex_limit};
ghost use Rattle.table.specs.Table.{vertex_count};
ghost use Rattle.index.specs.Index.{among, Indexed};
ghost use Rattle.plan_links.specs.PlanTable.{position_count, vertex_at};
ghost use Rattle.plan_links.specs.PlanFormed.{PlanFormed, WordsPass};
ghost use Rattle.plan_links.specs.LinkIndex.{LinkIndex};
ghost use Rattle.plan_returns.specs.Search.{NoLater};
ghost use Rattle.plan.specs.Acceptance.{lacks_link, first_lacking_link};
ghost use Rattle.plan.specs.Stamps.{Stamped, unstamped, unanswered, AnswerSpace, LackSpace};

use index::{of_edges, run_of};
use plan_links::vertex_of;
use table::limits::{EDGES, VERTEX_STARTS, VERTICES};

// What is judged: a player's plan in a game, with the links and the game's edges by their indexes.
#[derive(Drop)]
struct Judged<'a> {
    game: &'a [u16],
    player: u32,
    plan: &'a [u16],
    starts: &'a [u16],
    targets: &'a [u16],
    edge_starts: &'a [u16],
    edge_targets: &'a [u16],
}

impl Judged<'_> {
    // Stamps the vertex of each position that a link of i leads to.
    fn stamp_answers(&self, stamps: &mut [u16], i: usize, stamp: u16)
        requires plan_formed { PlanFormed (length stamps.old) self.now.plan.now × (i < position_count self.now.plan.now) }
        requires indexed { Indexed (position_count self.now.plan.now) self.now.starts.now self.now.targets.now }
        ensures { Stamped self.now.plan.now self.now.starts.now self.now.targets.now i stamp stamps.old stamps.new }
    {
        let run = run_of(self.starts, i);
        for t in run.from..run.end {
            let x = vertex_of(self.plan, usize::from(self.targets[t]));
            stamps[x] = stamp;
        }
    }

    // Whether some successor of vertex v has no stamp.
    fn some_unstamped(&self, stamps: &[u16], v: usize, stamp: u16) -> bool
        requires indexed { Indexed (vertex_count self.now.game.now) self.now.edge_starts.now self.now.edge_targets.now }
        requires v_lt_n { (v < vertex_count self.now.game.now) × (vertex_count self.now.game.now ≤ vertex_limit) × (vertex_count self.now.game.now ≤ length stamps.now) }
        ensures { result ≡ among self.now.edge_starts.now self.now.edge_targets.now v (unstamped stamps.now stamp) }
    {
        let run = run_of(self.edge_starts, v);
        for t in run.from..run.end {
            if stamps[usize::from(self.edge_targets[t])] != stamp {
                return true;
            }
        }
        false
    }

    // Whether some successor of the vertex of position i has no link of i to a position at it. The stamps are i + 1, so `stamps` needs no
    // clearing between positions.
    fn lacks_answer(&self, stamps: &mut [u16], i: usize) -> bool
        requires answer_space { AnswerSpace (vertex_count self.now.game.now) self.now.plan.now self.now.starts.now self.now.targets.now
            self.now.edge_starts.now self.now.edge_targets.now stamps.old i }
        requires no_later { NoLater i stamps.old }
        ensures value { result ≡ among self.now.edge_starts.now self.now.edge_targets.now (vertex_at self.now.plan.now i)
            (unanswered self.now.plan.now self.now.starts.now self.now.targets.now i) }
        ensures no_later_2 { NoLater (i + 1) stamps.new }
    {
        let stamp = (i + 1) as u16;
        self.stamp_answers(stamps, i, stamp);
        let v = vertex_of(self.plan, i);
        self.some_unstamped(stamps, v, stamp)
    }

    // Whether position i lacks a needed link: at a vertex of the player's any link, at the opponent's an answer to some successor.
    fn lacks_link(&self, stamps: &mut [u16], i: usize) -> bool
        requires lack_space { LackSpace self.now.game.now self.now.player self.now.plan.now self.now.starts.now self.now.targets.now
            self.now.edge_starts.now self.now.edge_targets.now stamps.old }
        requires i_bound { i < position_count self.now.plan.now }
        requires no_later { NoLater i stamps.old }
        ensures value { result ≡ lacks_link self.now.game.now self.now.player self.now.plan.now i }
        ensures no_later_2 { NoLater (i + 1) stamps.new }
    {
        let n = self.game[0] as usize;
        let v = vertex_of(self.plan, i);
        if self.game[2 + n + v] as u32 == self.player {
            return self.starts[i] == self.starts[i + 1];
        }
        self.lacks_answer(stamps, i)
    }

    // The lowest position that lacks a needed link; the number of positions where there is none.
    fn first_lacking_by(&self, stamps: &mut [u16]) -> usize
        requires lack_space { LackSpace self.now.game.now self.now.player self.now.plan.now self.now.starts.now self.now.targets.now
            self.now.edge_starts.now self.now.edge_targets.now stamps.old }
        requires by_index { (x : ℕ) → get_or stamps.old x 0 ≡ 0 }
        ensures { result ≡ first_lacking_link self.now.game.now self.now.player self.now.plan.now }
    {
        let p = self.plan[0] as usize;
        for i in 0..p {
            if self.lacks_link(stamps, i) {
                return i;
            }
        }
        p
    }
}

// 15: the lowest position that lacks a needed link. The game's edges are indexed once, so that a position looks at its vertex's
// successors and its own links alone.
pub fn first_lacking(
    game: &[u16],
    player: u32,
    plan: &[u16],
    starts: &[u16],
    targets: &[u16],
) -> usize
    requires words_pass { WordsPass game.now player plan.now }
    requires link_index { LinkIndex plan.now starts.now targets.now }
    ensures { result ≡ first_lacking_link game.now player plan.now }
{
    let mut edge_starts = [0u16; VERTEX_STARTS];
    let mut edge_targets = [0u16; EDGES];
    of_edges(game, &mut edge_starts, &mut edge_targets);
    let mut stamps = [0u16; VERTICES];
    let judged = Judged {
        game,
        player,
        plan,
        starts,
        targets,
        edge_starts: &edge_starts,
        edge_targets: &edge_targets,
    };
    judged.first_lacking_by(&mut stamps)
}
