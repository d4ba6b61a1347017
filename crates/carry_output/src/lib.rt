// The plan that is carried to the new vertex: 33 to 35, and its words. Parts of the calls that carry a plan; no host calls these.
#![tactic(auto)]

mod output;
mod seats;

ghost use Rattle.std.specs.Prelude.{◌≤◌, ◌<◌};
ghost use Rattle.table.specs.Table.{vertex_count, game_of};
ghost use Rattle.classes.specs.Numbering.{Ordered};
ghost use Rattle.plan_links.specs.PlanTable.{position_count};
ghost use Rattle.carry_replies.specs.Replies.{IsSeated};
ghost use Rattle.carry_search.specs.Work.{memory_in};
ghost use Rattle.carry_search.specs.Search.{table_found, Fresh, SearchResult};
ghost use Rattle.carry_output.specs.PlanWords.{plan_words, plan_counts, carrying_answer};
ghost use Rattle.carry_output.specs.CarryParts.{carried_by, arrival_rows, carried_seated, Arrived, PlanArrived, Carriable};

use carry_replies::{Replies, SeatedPlan, chain_links, no_better};
use carry_search::places::WORK_LENGTH;
use carry_search::{Counts, find_pairs};
use output::write_found;
use seats::seat_positions;
use table::flags::flag_edges;
use table::limits::{LINKS, PAIR_WORDS, POSITIONS};
use table::{Refusal, refused};

// The positions and links of the plan that is written.
#[derive(Clone, Copy)]
pub struct PlanCounts {
    pub positions: usize,
    pub links: usize,
}

// The search. Flags of the edges and chains of the plan's links are in local arrays of 73,728 bytes.
fn search(seated: &SeatedPlan<'_>, work: &mut [u16], y: usize) -> Counts
    requires seated { IsSeated seated.now }
    requires y_bound { (y < vertex_count seated.now.game.now) × Fresh work.old }
    ensures { let s = seated.now in SearchResult (table_found s.game.now s.player s.plan.now s.seats.now y) (memory_in work.new result) }
{
    let game = seated.game;
    let mut edges = [0u64; PAIR_WORDS];
    flag_edges(game, game[0] as usize, game[1] as usize, &mut edges);
    let mut firsts = [0u16; POSITIONS];
    let mut follow = [0u16; LINKS];
    chain_links(seated.plan, &mut firsts, &mut follow);
    let replies = Replies {
        seated: *seated,
        edges: &edges,
        firsts: &firsts,
        follow: &follow,
    };
    find_pairs(&replies, work, y)
}

// 34 and 35, and the plan's words. What is found is in a local array of 98,314 bytes.
fn carry_seated(
    seated: &SeatedPlan<'_>,
    y: usize,
    output: &mut [u16],
) -> Result<PlanCounts, Refusal>
    requires seated { IsSeated seated.now }
    requires y_bound { y < vertex_count seated.now.game.now }
    ensures { let s = seated.now in
        PlanArrived (carried_seated s.game.now s.player s.plan.now s.seats.now y) output.old (carrying_answer result) output.new }
{
    let mut work = [0u16; WORK_LENGTH];
    let found = search(seated, &mut work, y);
    write_found(&work, found.pairs, found.links, output)
}

// 33 to 35, and the plan's words, for a plan on the game itself, where no class is read, or, by class, on the reduced game. The seats are in a
// local array of 8,192 bytes.
pub fn carry_to(
    game: &[u16],
    player: u32,
    plan: &[u16],
    y: usize,
    marks: &[u8],
    classes: &[u16],
    output: &mut [u16],
    by_class: bool,
) -> Result<PlanCounts, Refusal>
    requires { Carriable by_class game.now plan.now classes.now × Ordered (game_of game.now) marks.now × (player ≤ 1) }
    ensures { Arrived (arrival_rows by_class game.now player plan.now y output.old)
        (plan_counts (carried_by by_class game.now player plan.now y))
        (plan_words (carried_by by_class game.now player plan.now y)) output.old (carrying_answer result)
        output.new }
{
    let n = game[0] as usize;
    if n <= y {
        return refused(33, y);
    }
    let mut seats = [0u16; POSITIONS];
    seat_positions(game, plan, classes, by_class, &mut seats);
    let x = seats[0] as usize;
    if !no_better(marks, n, player, x, y) {
        return refused(33, y);
    }
    let seated = SeatedPlan {
        game,
        player,
        plan,
        seats: &seats,
        marks,
    };
    carry_seated(&seated, y, output)
}
