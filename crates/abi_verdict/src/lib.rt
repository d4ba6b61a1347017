// The verdict call's export, in the form of those of `abi`.
#![tactic(auto)]

ghost use Rattle.std.specs.Prelude.{◌≡◌};
ghost use Rattle.verdict.specs.VerdictCall.{verdict_answer};
ghost use Rattle.abi_verdict.specs.VerdictExport.{with_shown, verdict_fields, SmallVerdict, VerdictExport};

use abi_answer::{RaskjomiAnswer, of_tabulation};
use table::Refusal;
use verdict::Verdict;

fn with_shown(answer: RaskjomiAnswer) -> RaskjomiAnswer
    ensures { result ≡ with_shown 1 answer }
{
    RaskjomiAnswer { shown: 1, ..answer }
}

fn of_verdict(verdict: Result<Verdict, Refusal>) -> RaskjomiAnswer
    requires { SmallVerdict verdict }
    ensures { result ≡ verdict_fields (verdict_answer verdict) }
{
    match verdict {
        Ok(Verdict::Wins(counts)) => with_shown(of_tabulation(Ok(counts))),
        Ok(Verdict::NotShown(counts)) => of_tabulation(Ok(counts)),
        Err(refusal) => of_tabulation(Err(refusal)),
    }
}

// Whether a plan on the reduced game shows that the player wins at the vertex; the reduced game, the classes and the order.
#[unsafe(no_mangle)]
pub extern "C" fn raskjomi_verdict(
    game: &[u16],
    vertex: u32,
    player: u32,
    plan: &[u16],
    marks: &mut [u8],
    spare: &mut [u8],
    classes: &mut [u16],
    reduction: &mut [u16],
) -> RaskjomiAnswer
    ensures { VerdictExport game.now vertex player plan.now marks.old spare.old classes.old reduction.old result
        marks.new spare.new classes.new reduction.new }
{
    of_verdict(verdict::give_verdict(game, vertex, player, plan, marks, spare, classes, reduction))
}
