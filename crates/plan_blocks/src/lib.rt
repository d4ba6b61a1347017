// Blocks of positions: each closed walk of the wrong parity stays in one. Blocks are refined by numbers that are checked and not trusted, and
// positions that can lie on no such walk leave them. Parts of the plan acceptor; no host calls these.
#![tactic(auto)]

ghost use Rattle.std.specs.Prelude.{◌≡◌, ◌≤◌, ◌<◌, length};
ghost use Rattle.theory.specs.Logic.Range.{all_below};
ghost use Rattle.table.specs.Limits.{position_limit};
ghost use Rattle.plan_blocks.specs.Blocks.{link_by, Confined};
ghost use Rattle.plan_blocks.specs.Refining.{numbered, leads_to, fits, taken, Taken, lowest, leaves, Bounded};

use plan_components::{GONE, WORK, number_components, word_at};
use table::limits::POSITION_STARTS;

// What stays while blocks are refined: the links between p positions by their index, the priority of each position, and the plan's player.
#[derive(Drop)]
struct Links<'a> {
    starts: &'a [u16],
    targets: &'a [u16],
    priorities: &'a [u16],
    p: usize,
    player: u32,
    ghost few: { p ≤ position_limit },
}

// A number for each position, and for each number the lowest priority of its positions. These are checked and not trusted.
#[derive(Drop)]
struct Numbering<'a> {
    numbers: &'a [u16],
    leasts: &'a [u16],
}

// Whether position w is in a block and has a number of at least `least`.
fn numbered(blocks: &[u16], numbers: &[u16], block: u16, least: u16, w: u16) -> bool
    ensures { result ≡ numbered blocks.now numbers.now block least w }
{
    if word_at(blocks, w as usize) != block {
        return false;
    }
    least <= word_at(numbers, w as usize)
}

// The next block of a position: its number, unless it is in no block.
fn taken(block: u16, number: u16) -> u16
    ensures { result ≡ taken block number }
{
    if block == GONE {
        return GONE;
    }
    number
}

// Each of the p positions that is in a block gets its number as its block.
fn take_numbers(blocks: &mut [u16], numbers: &[u16], p: usize)
    requires { (p ≤ position_limit) × (p ≤ length blocks.old) }
    ensures { Taken p blocks.old numbers.now blocks.new }
{
    for u in 0..p {
        blocks[u] = taken(blocks[u], word_at(numbers, u));
    }
}

impl Links<'_> {
    // Whether some link of position u leads to a position of its block whose number is at least `least`.
    fn leads_to(&self, blocks: &[u16], numbers: &[u16], u: usize, least: u16) -> bool
        requires { u < position_limit }
        ensures { result ≡ leads_to self.now.starts.now self.now.targets.now blocks.now numbers.now u least }
    {
        let block = word_at(blocks, u);
        for t in word_at(self.starts, u)..word_at(self.starts, u + 1) {
            let w = word_at(self.targets, usize::from(t));
            if numbered(blocks, numbers, block, least, w) {
                return true;
            }
        }
        false
    }

    // Whether the numbers may be trusted at position u: its number is one, its priority isn't below the one listed for that number, and no
    // link leads to a higher number in its block. A position in no block has no number.
    fn fits(&self, blocks: &[u16], numbering: &Numbering<'_>, u: usize) -> bool
        requires { u < position_limit }
        ensures { result ≡ fits self.now.starts.now self.now.targets.now self.now.priorities.now blocks.now numbering.now.numbers.now numbering.now.leasts.now u }
    {
        if word_at(blocks, u) == GONE {
            return true;
        }
        let number = word_at(numbering.numbers, u);
        if number == GONE {
            return false;
        }
        if word_at(self.priorities, u) < word_at(numbering.leasts, number as usize) {
            return false;
        }
        !self.leads_to(blocks, numbering.numbers, u, number + 1)
    }

    // Whether the numbers may be trusted at each position.
    fn all_fit(&self, blocks: &[u16], numbering: &Numbering<'_>) -> bool
        ensures { result ≡ all_below self.now.p (fits self.now.starts.now self.now.targets.now self.now.priorities.now blocks.now numbering.now.numbers.now numbering.now.leasts.now) }
    {
        for u in 0..self.p {
            if !self.fits(blocks, numbering, u) {
                return false;
            }
        }
        true
    }

    // Whether position v has the right parity and its block's lowest priority.
    fn lowest(&self, blocks: &[u16], leasts: &[u16], v: usize) -> bool
        ensures { result ≡ lowest self.now.priorities.now blocks.now leasts.now self.now.player v }
    {
        let priority = word_at(self.priorities, v);
        if (priority % 2) as u32 != self.player {
            return false;
        }
        priority <= word_at(leasts, word_at(blocks, v) as usize)
    }

    // Whether position v lies on no closed walk of the wrong parity: it has the right parity and its block's lowest priority, or no link of
    // its leads to its block.
    fn leaves(&self, blocks: &[u16], leasts: &[u16], v: usize) -> bool
        requires { v < position_limit }
        ensures { result ≡ leaves self.now.starts.now self.now.targets.now self.now.priorities.now blocks.now leasts.now self.now.player v }
    {
        if self.lowest(blocks, leasts, v) {
            return true;
        }
        !self.leads_to(blocks, blocks, v, 0)
    }

    // Takes position v out of its block, if it lies on no closed walk of the wrong parity.
    fn leave(&self, blocks: &mut [u16], leasts: &[u16], v: usize)
        requires p_le_length { (self.now.p ≤ length blocks.old) × (v < self.now.p) }
        requires confined { Confined self.now.p self.now.player (link_by self.now.starts.now self.now.targets.now) self.now.priorities.now blocks.old }
        requires bounded { Bounded self.now.p self.now.priorities.now blocks.old leasts.now }
        ensures confined_2 { Confined self.now.p self.now.player (link_by self.now.starts.now self.now.targets.now) self.now.priorities.now blocks.new }
        ensures bounded_2 { Bounded self.now.p self.now.priorities.now blocks.new leasts.now }
    {
        if self.leaves(blocks, leasts, v) {
            blocks[v] = GONE;
            return;
        }
    }

    // The same for each position.
    fn remove(&self, blocks: &mut [u16], leasts: &[u16])
        requires p_le_length { self.now.p ≤ length blocks.old }
        requires confined { Confined self.now.p self.now.player (link_by self.now.starts.now self.now.targets.now) self.now.priorities.now blocks.old }
        requires bounded { Bounded self.now.p self.now.priorities.now blocks.old leasts.now }
        ensures { Confined self.now.p self.now.player (link_by self.now.starts.now self.now.targets.now) self.now.priorities.now blocks.new }
    {
        for v in 0..self.p {
            self.leave(blocks, leasts, v);
        }
    }

    // Splits blocks by numbers, if they pass the check, and takes out what can't lie on a closed walk of the wrong parity.
    fn split(&self, blocks: &mut [u16], numbering: &Numbering<'_>)
        requires p_le_length { self.now.p ≤ length blocks.old }
        requires confined { Confined self.now.p self.now.player (link_by self.now.starts.now self.now.targets.now) self.now.priorities.now blocks.old }
        ensures { Confined self.now.p self.now.player (link_by self.now.starts.now self.now.targets.now) self.now.priorities.now blocks.new }
    {
        if self.all_fit(blocks, numbering) {
            take_numbers(blocks, numbering.numbers, self.p);
            self.remove(blocks, numbering.leasts);
        }
    }
}

// Refines the blocks of p positions by the strongly connected components inside them, in at most `steps` steps of the search for these.
pub fn refine(
    starts: &[u16],
    targets: &[u16],
    priorities: &[u16],
    blocks: &mut [u16],
    p: usize,
    player: u32,
    steps: usize,
)
    requires p_le_position_limit { (p ≤ position_limit) × (p ≤ length blocks.old) }
    requires confined { Confined p player (link_by starts.now targets.now) priorities.now blocks.old }
    ensures { Confined p player (link_by starts.now targets.now) priorities.now blocks.new }
{
    let mut numbers = [0u16; POSITION_STARTS];
    let mut leasts = [0u16; POSITION_STARTS];
    let mut work = [0u16; WORK];
    number_components(
        starts,
        targets,
        priorities,
        blocks,
        &mut numbers,
        &mut leasts,
        &mut work,
        p,
        steps,
    );
    let links = Links {
        starts,
        targets,
        priorities,
        p,
        player,
    };
    let numbering = Numbering {
        numbers: &numbers,
        leasts: &leasts,
    };
    links.split(blocks, &numbering);
}
