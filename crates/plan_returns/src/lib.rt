// Refusal 16: the search for a position of the wrong parity that returns. A part of the plan acceptor; no host calls it.
// `starts` and `targets` index the links, `priorities` has the priority of each position, `blocks` its block: a search stays in one.
// Each time that the searches have looked at some multiple of all links, the blocks are refined.
#![tactic(auto)]

ghost use Rattle.std.specs.Prelude.{◌≡◌, ℕ, ◌+◌, ◌≤◌, ◌<◌, length, get_or};
ghost use Rattle.theory.specs.Logic.Range.{first};
ghost use Rattle.theory.specs.Plans.Reach.{reaches};
ghost use Rattle.table.specs.Limits.{position_limit};
ghost use Rattle.table.specs.Table.{vertex_count};
ghost use Rattle.table.specs.WellFormed.{WellFormed};
ghost use Rattle.plan_links.specs.PlanTable.{position_count};
ghost use Rattle.plan_links.specs.PlanFormed.{PlanFormed, WordsPass};
ghost use Rattle.plan_links.specs.LinkIndex.{LinkIndex};
ghost use Rattle.plan_returns.specs.Returns.{position_priority, first_return};
ghost use Rattle.plan_blocks.specs.Blocks.{link_by, Confined};
ghost use Rattle.plan_returns.specs.Search.{NoLater, fresh, Visited, Queued, Grown, follows, Searched};
ghost use Rattle.plan_returns.specs.ReturnSearch.{Workspace, passes, from_of, wrong_by};

use index::run_of;
use plan_blocks::refine;
use plan_components::GONE;
use plan_links::vertex_of;
use table::limits::{POSITION_STARTS, POSITIONS};

// What all searches share: the links between p positions by their index, the priority of each position, and the plan's player.
#[derive(Clone, Copy)]
struct Links<'a> {
    starts: &'a [u16],
    targets: &'a [u16],
    priorities: &'a [u16],
    p: usize,
    player: u32,
}

// The work memory of searches: the stamp of each position, and the positions that the present search reached.
#[derive(Drop)]
struct Memory {
    seen: [u16; POSITIONS],
    queue: [u16; POSITION_STARTS],
    ghost stamps: { length seen ≡ position_limit },
    ghost entries: { length queue ≡ position_limit + 1 },
}

// A search from position i, through the positions of its block whose priority is at least its own. It stamps these by i + 1, so that `seen`
// needs no clearing between searches.
#[derive(Drop)]
struct Search<'a> {
    links: Links<'a>,
    blocks: &'a [u16],
    i: usize,
    least: u16,
    block: u16,
    stamp: u16,
    ghost own_priority: { least ≡ get_or links.priorities.now i 0 },
    ghost own_block: { block ≡ get_or blocks.now i 0 },
}

// What a search finds, and how many links may still be looked at.
#[derive(Clone, Copy)]
struct Outcome {
    found: bool,
    left: usize,
}

// What is left of a number of links to look at, after those of position i.
fn spend(starts: &[u16], i: usize, left: usize) -> usize
    requires { i + 1 < length starts.now }
{
    let run = run_of(starts, i);
    if run.end < run.from {
        return left;
    }
    left.saturating_sub(run.end - run.from + 1)
}

impl Search<'_> {
    // Stamps position j and queues it, if its priority is at least `least`, it is in the block and it isn't stamped yet. Returns the queue's
    // new end.
    fn visit(&self, memory: &mut Memory, j: usize, tail: usize) -> usize
        requires { (j < length self.now.links.priorities.now) × (j < length self.now.blocks.now) × (tail < length memory.old.queue) × (j < position_limit) }
        ensures { Visited (fresh (passes self.now.links.priorities.now self.now.blocks.now self.now.least self.now.block) self.now.stamp memory.old.seen j)
            self.now.stamp j memory.old.seen memory.old.queue tail memory.new.seen memory.new.queue result }
    {
        if self.links.priorities[j] < self.least {
            return tail;
        }
        if self.blocks[j] != self.block {
            return tail;
        }
        if memory.seen[j] == self.stamp {
            return tail;
        }
        memory.seen[j] = self.stamp;
        memory.queue[tail] = j as u16;
        tail + 1
    }

    // Follows the links of position j: stamps and queues each of their targets that is new, in the block, and of priority at least `least`.
    fn expand(&self, memory: &mut Memory, j: usize, tail: usize) -> usize
        requires workspace { Workspace self.now.links.p self.now.links.starts.now self.now.links.targets.now self.now.links.priorities.now
            self.now.blocks.now memory.old.seen memory.old.queue × (j < self.now.links.p) }
        requires queued { Queued self.now.links.p self.now.stamp memory.old.seen memory.old.queue tail }
        ensures { Grown self.now.links.p self.now.stamp (follows (passes self.now.links.priorities.now self.now.blocks.now self.now.least self.now.block)
            (link_by self.now.links.starts.now self.now.links.targets.now) j) memory.old.seen memory.old.queue tail memory.new.seen memory.new.queue result }
    {
        let run = run_of(self.links.starts, j);
        let mut last = tail;
        for t in run.from..run.end {
            last = self.visit(memory, usize::from(self.links.targets[t]), last);
        }
        last
    }

    // The rest of the search: follows the links of each position in the queue, until i is stamped or none is left.
    fn search_queue(&self, memory: &mut Memory, entries: usize, budget: usize) -> Outcome
        requires workspace { Workspace self.now.links.p self.now.links.starts.now self.now.links.targets.now self.now.links.priorities.now
            self.now.blocks.now memory.old.seen memory.old.queue × (self.now.i < self.now.links.p) }
        requires searched { Searched self.now.links.p (link_by self.now.links.starts.now self.now.links.targets.now)
            (passes self.now.links.priorities.now self.now.blocks.now self.now.least self.now.block) self.now.i self.now.stamp
            memory.old.seen memory.old.queue 0 entries }
        ensures found_value { result.found ≡ reaches self.now.links.p (link_by self.now.links.starts.now self.now.links.targets.now)
            (passes self.now.links.priorities.now self.now.blocks.now self.now.least self.now.block) self.now.links.p self.now.i self.now.i }
        ensures no_later { NoLater self.now.stamp memory.new.seen }
    {
        let mut left = budget;
        let mut tail = entries;
        let mut head = 0;
        while head < tail {
            if memory.seen[self.i] == self.stamp {
                return Outcome { found: true, left };
            }
            let j = memory.queue[head] as usize;
            left = spend(self.links.starts, j, left);
            tail = self.expand(memory, j, tail);
            head += 1;
        }
        let found = memory.seen[self.i] == self.stamp;
        Outcome { found, left }
    }
}

impl Links<'_> {
    // Whether position i is reached from itself by one link or more, through positions of its block of priority at least its own: a
    // breadth-first search.
    fn returns(&self, blocks: &[u16], memory: &mut Memory, i: usize, budget: usize) -> Outcome
        requires workspace { Workspace self.now.p self.now.starts.now self.now.targets.now self.now.priorities.now blocks.now memory.old.seen memory.old.queue × (i < self.now.p) }
        requires no_later { NoLater i memory.old.seen }
        ensures found_value { result.found ≡ reaches self.now.p (link_by self.now.starts.now self.now.targets.now) (from_of self.now.priorities.now blocks.now i) self.now.p i i }
        ensures no_later_2 { NoLater (i + 1) memory.new.seen }
    {
        let search = Search {
            links: *self,
            blocks,
            i,
            least: self.priorities[i],
            block: blocks[i],
            stamp: (i + 1) as u16,
        };
        let tail = search.expand(memory, i, 0);
        let left = spend(self.starts, i, budget);
        search.search_queue(memory, tail, left)
    }

    // Whether position i has the wrong parity and returns. A position of the right parity or in no block starts no search.
    fn returns_wrong(&self, blocks: &[u16], memory: &mut Memory, i: usize, left: usize) -> Outcome
        requires workspace { Workspace self.now.p self.now.starts.now self.now.targets.now self.now.priorities.now blocks.now memory.old.seen memory.old.queue × (i < self.now.p) × (self.now.player ≤ 1) }
        requires no_later { NoLater i memory.old.seen }
        requires confined { Confined self.now.p self.now.player (link_by self.now.starts.now self.now.targets.now) self.now.priorities.now blocks.now }
        ensures found_value { result.found ≡ wrong_by self.now.starts.now self.now.targets.now self.now.priorities.now self.now.p self.now.player i }
        ensures no_later_2 { NoLater (i + 1) memory.new.seen }
    {
        if (self.priorities[i] % 2) as u32 == self.player {
            return Outcome { found: false, left };
        }
        if blocks[i] == GONE {
            return Outcome { found: false, left };
        }
        self.returns(blocks, memory, i, left)
    }

    // Refines the blocks once no links are left to look at: twice, since what leaves a block can part what stays. Returns how many links may
    // be looked at before the next time.
    fn renew(&self, blocks: &mut [u16], left: usize, budget: usize) -> usize
        requires p_le_position_limit { (self.now.p ≤ position_limit) × (self.now.p ≤ length blocks.old) }
        requires confined { Confined self.now.p self.now.player (link_by self.now.starts.now self.now.targets.now) self.now.priorities.now blocks.old }
        ensures { Confined self.now.p self.now.player (link_by self.now.starts.now self.now.targets.now) self.now.priorities.now blocks.new }
    {
        if 0 < left {
            return left;
        }
        let Links {
            starts,
            targets,
            priorities,
            p,
            player,
        } = *self;
        refine(starts, targets, priorities, blocks, p, player, budget);
        refine(starts, targets, priorities, blocks, p, player, budget);
        budget
    }

    // The lowest position of the wrong parity that returns; p where there is none. Whenever the searches have looked at about `budget` links,
    // the blocks are refined. No more than p × l links are looked at in searches.
    fn first_returning(&self, blocks: &mut [u16], memory: &mut Memory, budget: usize) -> usize
        requires workspace { Workspace self.now.p self.now.starts.now self.now.targets.now self.now.priorities.now blocks.old memory.old.seen memory.old.queue × (self.now.player ≤ 1) }
        requires by_index { (j : ℕ) → get_or memory.old.seen j 0 ≡ 0 }
        requires by_index_2 { (j : ℕ) → get_or blocks.old j 0 ≡ 0 }
        ensures { result ≡ first (wrong_by self.now.starts.now self.now.targets.now self.now.priorities.now self.now.p self.now.player) 0 self.now.p }
    {
        let mut left = budget;
        for i in 0..self.p {
            let outcome = self.returns_wrong(blocks, memory, i, left);
            if outcome.found {
                return i;
            }
            left = self.renew(blocks, outcome.left, budget);
        }
        self.p
    }
}

// The priority of each position.
fn fill_priorities(game: &[u16], plan: &[u16], priorities: &mut [u16])
    requires well_formed { WellFormed game.now × PlanFormed (vertex_count game.now) plan.now }
    requires plan_in_bounds { position_count plan.now ≤ length priorities.old }
    ensures { (i : ℕ) → i < position_count plan.now → get_or priorities.new i 0 ≡ position_priority game.now plan.now i }
{
    let p = plan[0] as usize;
    for j in 0..p {
        priorities[j] = game[2 + vertex_of(plan, j)];
    }
}

// 16: the lowest position of the wrong parity that returns; the number of positions where there is none.
pub fn first_return(
    game: &[u16],
    player: u32,
    plan: &[u16],
    starts: &[u16],
    targets: &[u16],
) -> usize
    requires words_pass { WordsPass game.now player plan.now }
    requires link_index { LinkIndex plan.now starts.now targets.now }
    ensures { result ≡ first_return game.now player plan.now }
{
    let p = plan[0] as usize;
    let l = plan[1] as usize;
    let mut priorities = [0u16; POSITIONS];
    fill_priorities(game, plan, &mut priorities);
    let links = Links {
        starts,
        targets,
        priorities: &priorities,
        p,
        player,
    };
    let mut blocks = [0u16; POSITIONS];
    let mut memory = Memory {
        seen: [0; POSITIONS],
        queue: [0; POSITION_STARTS],
    };
    links.first_returning(&mut blocks, &mut memory, 8 * (p + l + 1024))
}
