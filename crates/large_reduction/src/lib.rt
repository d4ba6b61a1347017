// A reduction of a game of any size, judged: another game, the class of each vertex, and a certificate. Nothing is written, and no memory is
// used besides the caller's words.
#![tactic(auto)]

mod searches;
mod tests;

ghost use Rattle.std.specs.Prelude.{◌≡◌, [], ◌++◌};
ghost use Rattle.table.specs.Table.{vertex_count, table_edges};
ghost use Rattle.table.specs.Answers.{judge};
ghost use Rattle.table.specs.Acceptance.{acceptance_answer};
ghost use Rattle.large_table.specs.Words.{TableOf};
ghost use Rattle.large_table.specs.Reading.{large_rows, LargeFormed};
ghost use Rattle.large_images.specs.Images.{image_rows, Classes};
ghost use Rattle.large_reduction.specs.ReductionCall.{shifted, merge_rows, reduction_answer};

use large_images::Merge;
use large_table::{first_at_least, read};
use table::{NoCounts, Refusal, refused};

// Judges a game, a reduced game, the class of each vertex and a certificate: the reader's refusals of the game, 90 more of the reduced game,
// then 97 to 106 in order, each over the whole input before the next. Accepted only if each vertex has the winner of its class.
pub fn check_reduction(
    game: &[u32],
    reduced: &[u32],
    classes: &[u32],
    certificate: &[u32],
) -> Result<NoCounts, Refusal>
    ensures { acceptance_answer result ≡ reduction_answer game.now reduced.now classes.now certificate.now }
{
    read(game)?;
    judge_reduced(game, reduced, classes, certificate)
}

// 91 to 96: the reduced game, for a game that was read.
fn judge_reduced(
    game: &[u32],
    reduced: &[u32],
    classes: &[u32],
    certificate: &[u32],
) -> Result<NoCounts, Refusal>
    requires { LargeFormed game.now }
    ensures { acceptance_answer result ≡ judge (shifted (large_rows reduced.now) ++ merge_rows game.now reduced.now classes.now certificate.now) [] }
{
    match read(reduced) {
        Err(refusal) => refused(refusal.number + 90, refusal.place),
        Ok(_) => judge_classes(game, reduced, classes, certificate),
    }
}

// 97 to 100, for two games that were read: the reduced game's rows, and the classes.
fn judge_classes(
    game: &[u32],
    reduced: &[u32],
    classes: &[u32],
    certificate: &[u32],
) -> Result<NoCounts, Refusal>
    requires { LargeFormed game.now × LargeFormed reduced.now }
    ensures { acceptance_answer result ≡ judge (merge_rows game.now reduced.now classes.now certificate.now) [] }
{
    let merge = Merge {
        game,
        reduced,
        classes,
        certificate,
        n: game[0] as usize,
        m: game[1] as usize,
        k: reduced[0] as usize,
        q: reduced[1] as usize,
    };
    let descent = searches::first_descent(merge);
    if descent < merge.q {
        return refused(97, descent);
    }
    if classes.len() != merge.n {
        return refused(98, classes.len());
    }
    let beyond = first_at_least(classes, merge.k, 0, merge.n);
    if beyond < merge.n {
        return refused(99, beyond);
    }
    let different = searches::first_different(merge);
    if different < merge.n {
        return refused(100, different);
    }
    judge_images(merge)
}

// 101 to 106: the certificate, for games that were read and classes that are vertices of the reduced game.
fn judge_images(merge: Merge) -> Result<NoCounts, Refusal>
    requires tables { TableOf merge.game.now merge.n merge.m × TableOf merge.reduced.now merge.k merge.q × Classes merge.classes.now merge.n merge.k }
    requires sizes { (merge.n ≡ vertex_count merge.game.now) × (merge.m ≡ table_edges merge.game.now) × (merge.k ≡ vertex_count merge.reduced.now) × (merge.q ≡ table_edges merge.reduced.now) }
    ensures { acceptance_answer result ≡ judge (image_rows merge.entry.game.now merge.entry.reduced.now merge.entry.classes.now merge.entry.certificate.now) [] }
{
    if merge.certificate.len() != merge.n + merge.k + 2 * merge.m {
        return refused(101, merge.certificate.len());
    }
    let empty = merge.first_empty();
    if empty < merge.k {
        return refused(102, empty);
    }
    let image = merge.first_image();
    if image < merge.m {
        return refused(103, image);
    }
    let start = merge.first_start();
    if start < merge.n {
        return refused(104, start);
    }
    let owner = merge.first_owner();
    if owner < merge.n {
        return refused(105, owner);
    }
    let after = merge.first_after();
    if after < merge.m {
        return refused(106, after);
    }
    Ok(NoCounts {})
}
