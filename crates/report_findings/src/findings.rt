// All numbers of the report.
ghost use Rattle.std.specs.Prelude.{◌*◌, ◌≤◌, length};
ghost use Rattle.report_findings.specs.Words.{read_limit, words_of};
ghost use Rattle.report_findings.specs.Findings.{Reported};
ghost use Rattle.report_findings.specs.ReportMemory.{Enough};

use crate::{Report, input_words};
use reduction::tables::fill_memory;
use reduction_totals::{Totals, write_totals};

// Judges the game, counts the passes, classes and the reduced game's vertices and edges, writes the class of each vertex and the members
// and edges of each class, and sums these up. The other buffers are working memory. All are enough for any game that the reader accepts.
fn find(
    game: &[u16],
    marks: &mut [u8],
    spare: &mut [u8],
    output: &mut [u16],
    classes: &mut [u16],
    members: &mut [u16],
    edges: &mut [u16],
) -> Report
    requires { Enough marks.old spare.old output.old classes.old members.old edges.old }
    ensures { Reported game.now classes.old members.old edges.old result classes.new members.new edges.new }
{
    let verdict = table_reader::read(game);
    let Ok(_) = verdict else {
        return Report {
            verdict,
            passes: 0,
            classes: 0,
            totals: Totals {
                members: 0,
                edges: 0,
            },
            vertices: 0,
            edges: 0,
        };
    };
    let filled = fill_memory(game, marks, spare, classes, output, true);
    let counts = filled.counts;
    let totals = write_totals(game, classes, output, members, edges);
    Report {
        verdict,
        passes: filled.passes,
        classes: counts.classes,
        totals,
        vertices: counts.vertices,
        edges: counts.edges,
    }
}

// The same of the words that the bytes stand for.
pub fn find_from_bytes(
    bytes: &[u8],
    words: &mut [u16],
    marks: &mut [u8],
    spare: &mut [u8],
    output: &mut [u16],
    classes: &mut [u16],
    members: &mut [u16],
    edges: &mut [u16],
) -> Report
    requires bytes_len_bound { (length bytes.now ≤ 2 * read_limit) × (read_limit ≤ length words.old) }
    requires enough { Enough marks.old spare.old output.old classes.old members.old edges.old }
    ensures { Reported (words_of bytes.now) classes.old members.old edges.old result classes.new members.new edges.new }
{
    let count = input_words::decode(bytes, words);
    find(
        &words[..count],
        marks,
        spare,
        output,
        classes,
        members,
        edges,
    )
}
