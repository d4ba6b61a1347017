// The plan acceptor. A plan is document 01's term for a finite-memory strategy, given as a graph of positions and links.
#![tactic(auto)]

mod answers;

ghost use Rattle.std.specs.Prelude.{◌≡◌, [], drop};
ghost use Rattle.table.specs.Answers.{judge};
ghost use Rattle.table.specs.Acceptance.{acceptance_answer};
ghost use Rattle.table.specs.WellFormed.{WellFormed};
ghost use Rattle.plan_links.specs.PlanFormed.{WordsPass};
ghost use Rattle.plan_links.specs.LinkIndex.{LinkIndex};
ghost use Rattle.plan.specs.Acceptance.{plan_rows, plan_answer};

use table::limits::{LINKS, POSITION_STARTS};
use table::{NoCounts, Refusal, refusal_of, refused};

// Judges a game, a player (0 Even, 1 Odd) and a plan: the reader's refusals, then 11 to 16 in order. Accepted exactly if the plan wins
// for the player from the vertex of position 0.
pub fn accept_plan(game: &[u16], player: u32, plan: &[u16]) -> Result<NoCounts, Refusal>
    ensures { acceptance_answer result ≡ plan_answer game.now player plan.now }
{
    let reading = table_reader::read_sizes(game);
    let Ok(_) = reading else {
        return Err(refusal_of(reading));
    };
    judge_plan(game, player, plan)
}

// 11 to 16, for a game that was read already. A part of `accept_plan`, and of the calls that judge a plan after other checks.
pub fn judge_plan(game: &[u16], player: u32, plan: &[u16]) -> Result<NoCounts, Refusal>
    requires { WellFormed game.now }
    ensures { acceptance_answer result ≡ judge (plan_rows game.now player plan.now) [] }
{
    if 1 < player {
        return refused(11, 0);
    }
    if plan_links::bad_size(plan) {
        return refused(12, 0);
    }
    let n = game[0] as usize;
    let beyond = plan_links::first_beyond(plan, n);
    if beyond < plan.len() {
        return refused(13, beyond);
    }
    let l = plan[1] as usize;
    let stray = plan_links::first_stray(game, plan);
    if stray < l {
        return refused(14, stray);
    }
    judge_positions(game, player, plan)
}

// 15 and 16, over an index of the links.
fn judge_positions(game: &[u16], player: u32, plan: &[u16]) -> Result<NoCounts, Refusal>
    requires { WordsPass game.now player plan.now }
    ensures { acceptance_answer result ≡ judge (drop 4 (plan_rows game.now player plan.now)) [] }
{
    let mut starts = [0u16; POSITION_STARTS];
    let mut targets = [0u16; LINKS];
    plan_links::index_links(plan, &mut starts, &mut targets);
    judge_indexed(game, player, plan, &starts, &targets)
}

fn judge_indexed(
    game: &[u16],
    player: u32,
    plan: &[u16],
    starts: &[u16],
    targets: &[u16],
) -> Result<NoCounts, Refusal>
    requires words_pass { WordsPass game.now player plan.now }
    requires link_index { LinkIndex plan.now starts.now targets.now }
    ensures { acceptance_answer result ≡ judge (drop 4 (plan_rows game.now player plan.now)) [] }
{
    let p = plan[0] as usize;
    let lacking = answers::first_lacking(game, player, plan, starts, targets);
    if lacking < p {
        return refused(15, lacking);
    }
    let returning = plan_returns::first_return(game, player, plan, starts, targets);
    if returning < p {
        return refused(16, returning);
    }
    Ok(NoCounts {})
}
