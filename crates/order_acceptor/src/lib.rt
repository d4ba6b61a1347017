// The acceptor of relations.
#![tactic(auto)]

mod failing;

ghost use Rattle.std.specs.Prelude.{◌≡◌};
ghost use Rattle.table.specs.Table.{vertex_count};
ghost use Rattle.table.specs.WellFormed.{WellFormed};
ghost use Rattle.table.specs.Acceptance.{acceptance_answer};
ghost use Rattle.order_acceptor.specs.RelationCall.{pair_by, acceptor_answer, relation_answer};

use marks::packed::{has_unused, length_for};
use table::{NoCounts, Refusal, refusal_of, refused};

// Judges the marks for a game of n vertices that was read: accepted if the marked pairs form a direct simulation or, with `mirror`, a governed
// bisimulation. A part of the two acceptors; no host calls it.
pub fn judge_marks(game: &[u16], n: usize, marks: &[u8], mirror: bool) -> Result<NoCounts, Refusal>
    requires { WellFormed game.now × (n ≡ vertex_count game.now) }
    ensures { acceptance_answer result ≡ acceptor_answer (pair_by mirror) game.now marks.now }
{
    let needed = length_for(n);
    if marks.len() < needed {
        return refused(21, needed);
    }
    let pairs = n * n;
    if has_unused(marks, pairs) {
        return refused(41, needed - 1);
    }
    let failing = failing::failing_pair(game, marks, mirror);
    let place = failing.v * n + failing.w;
    if place < pairs {
        return refused(10, place);
    }
    Ok(NoCounts {})
}

// Judges the game and the marks: accepted if the marked pairs form a direct simulation.
pub fn accept_relation(game: &[u16], marks: &[u8]) -> Result<NoCounts, Refusal>
    ensures { acceptance_answer result ≡ relation_answer game.now marks.now }
{
    let reading = table_reader::read_sizes(game);
    let Ok(sizes) = reading else {
        return Err(refusal_of(reading));
    };
    judge_marks(game, sizes.vertices, marks, false)
}
