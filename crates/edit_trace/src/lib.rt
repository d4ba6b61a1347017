// A recorded list of edits: refusal 40. A part of the call; no host calls it.
#![tactic(auto)]

ghost use Rattle.std.specs.Prelude.{◌≡◌, []};
ghost use Rattle.table.specs.Answers.{judge};
ghost use Rattle.table.specs.Acceptance.{acceptance_answer};
ghost use Rattle.edit_trace.specs.Trace.{trace_rows};

use table::{NoCounts, Refusal, refused};

// The most entries of a trace.
pub const ENTRIES: usize = 4096;

// Judges the words of a trace: 40.
pub fn judge_trace(trace: &[u16]) -> Result<NoCounts, Refusal>
    ensures { acceptance_answer result ≡ judge (trace_rows trace.now) [] }
{
    let len = trace.len();
    if len == 0 {
        return refused(40, 0);
    }
    let count = trace[0] as usize;
    if len != 1 + 2 * count {
        return refused(40, 0);
    }
    if ENTRIES < count {
        return refused(40, 0);
    }
    Ok(NoCounts {})
}
