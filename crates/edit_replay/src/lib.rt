// A recorded list of edits, made in a table that begins a buffer, with the order and the classes of the final table.
#![tactic(auto)]

ghost use Rattle.table.specs.Table.{table_in};
ghost use Rattle.table.specs.Answers.{Clean};
ghost use Rattle.classes.specs.ClassesRules.{ClassesFit};
ghost use Rattle.edit_rules.specs.EditParts.{Formed};
ghost use Rattle.edit_trace.specs.Trace.{trace_rows};
ghost use Rattle.reduction.specs.TableCall.{tabulation_answer};
ghost use Rattle.edit_replay.specs.ReplayCall.{ReplayCall};
ghost use Rattle.edit_replay.specs.ReplayedMemory.{Replayed};

use classes::{fill_memory, judge_memory};
use edit_rules::buffer::read_in;
use edit_run::run_entries;
use edit_trace::judge_trace;
use reduction::TableCounts;
use table::{Refusal, refusal_of};

// The verdict, and how many entries are done, whether or not all are accepted.
#[derive(Clone, Copy)]
pub struct Replaying {
    pub verdict: Result<TableCounts, Refusal>,
    pub entries: usize,
}

// Makes the entries of a trace that was judged, and writes the order and the classes of the table that they leave. What lies between is never
// seen, so these are worked out once.
fn apply_trace(
    buffer: &mut [u16],
    n: usize,
    m: usize,
    trace: &[u16],
    marks: &mut [u8],
    spare: &mut [u8],
    classes: &mut [u16],
) -> Replaying
    requires formed { Formed (table_in buffer.old) n m × ClassesFit (table_in buffer.old) marks.old spare.old classes.old }
    requires clean { Clean (trace_rows trace.now) }
    ensures { Replayed buffer.old trace.now marks.old spare.old classes.old (tabulation_answer result.verdict) result.entries
        buffer.new marks.new spare.new classes.new }
{
    let run = run_entries(buffer, n, m, trace);
    let edges = run.edges;
    let end = 2 + 2 * n + 2 * edges;
    let k = fill_memory(&buffer[..end], n, marks, spare, classes);
    let verdict = run.verdict;
    if let Err(refusal) = verdict {
        return Replaying {
            verdict: Err(refusal),
            entries: run.done,
        };
    }
    Replaying {
        verdict: Ok(TableCounts {
            classes: k,
            vertices: n,
            edges,
        }),
        entries: run.done,
    }
}

// Judges the memory and the trace for a table of n vertices and m edges that was read, and replays the trace.
fn replay_table(
    buffer: &mut [u16],
    n: usize,
    m: usize,
    trace: &[u16],
    marks: &mut [u8],
    spare: &mut [u8],
    classes: &mut [u16],
) -> Replaying
    requires { Formed (table_in buffer.old) n m }
    ensures { ReplayCall buffer.old trace.now marks.old spare.old classes.old (tabulation_answer result.verdict) result.entries
        buffer.new marks.new spare.new classes.new }
{
    let memory = judge_memory(n, marks.len(), spare.len(), classes.len());
    if let Err(refusal) = memory {
        return Replaying {
            verdict: Err(refusal),
            entries: 0,
        };
    }
    let judged = judge_trace(trace);
    if let Err(refusal) = judged {
        return Replaying {
            verdict: Err(refusal),
            entries: 0,
        };
    }
    apply_trace(buffer, n, m, trace, marks, spare, classes)
}

// Makes the edits of a trace in the table that begins the buffer, each entry's edge arriving if absent and leaving if present, and writes the
// order and the classes of the final table. The first entry that is refused ends the run; memory is then as after the entries done.
pub fn replay(
    buffer: &mut [u16],
    trace: &[u16],
    marks: &mut [u8],
    spare: &mut [u8],
    classes: &mut [u16],
) -> Replaying
    ensures { ReplayCall buffer.old trace.now marks.old spare.old classes.old (tabulation_answer result.verdict) result.entries
        buffer.new marks.new spare.new classes.new }
{
    let reading = read_in(buffer);
    let Ok(sizes) = reading else {
        return Replaying {
            verdict: Err(refusal_of(reading)),
            entries: 0,
        };
    };
    replay_table(
        buffer,
        sizes.vertices,
        sizes.edges,
        trace,
        marks,
        spare,
        classes,
    )
}
