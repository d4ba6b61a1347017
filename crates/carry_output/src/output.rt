// A part of the calls that carry a plan; no host calls it.
// The plan that was found, as words of the output.
ghost use Rattle.std.specs.Prelude.{◌≡◌, ◌+◌, ◌-◌, ◌≤◌, length};
ghost use Rattle.table.specs.Limits.{position_limit, link_limit};
ghost use Rattle.table.specs.Placing.{placed};
ghost use Rattle.table.specs.Answers.{written};
ghost use Rattle.plan_links.specs.PlanTable.{plan_length};
ghost use Rattle.carry_search.specs.Work.{work_length, part};
ghost use Rattle.carry_output.specs.PlanWords.{plan_words, carrying_answer};
ghost use Rattle.carry_output.specs.CarryParts.{first_words, plan_in, PlanArrived};

use crate::PlanCounts;
use carry_search::places::{HEADS_AT, SOURCES_AT, TARGETS_AT, VERTICES_AT, WORK_LENGTH};
use table::limits::{LINKS, POSITIONS};
use table::{Refusal, refused, slices};

// Puts the first `count` words of a part of the work memory.
fn copy_part(output: &mut [u16], at: usize, work: &[u16], start: usize, end: usize, count: usize)
    requires { (at + count ≤ length output.old) × (start + count ≤ end) × (end ≤ length work.now) }
    ensures { output.new ≡ placed at (first_words count (part work.now start (end - start))) output.old }
{
    slices::copy(output, at, &work[start..end], count);
}

// Writes the plan: sizes, vertices, sources and targets of links.
fn write_plan(work: &[u16], p: usize, l: usize, output: &mut [u16])
    requires p_le_position_limit { (p ≤ position_limit) × (l ≤ link_limit) × (work_length ≤ length work.now) }
    requires l_in_bounds { plan_length p l ≤ length output.old }
    ensures { output.new ≡ written (plan_words (plan_in work.now p l)) output.old }
{
    output[0] = p as u16;
    output[1] = l as u16;
    copy_part(output, 2, work, VERTICES_AT, HEADS_AT, p);
    copy_part(output, 2 + p, work, SOURCES_AT, TARGETS_AT, l);
    copy_part(output, 2 + p + l, work, TARGETS_AT, WORK_LENGTH, l);
}

// Judges 34 and 35 of the first p vertices and l links, and writes the plan.
pub fn write_found(
    work: &[u16],
    p: usize,
    l: usize,
    output: &mut [u16],
) -> Result<PlanCounts, Refusal>
    requires { work_length ≤ length work.now }
    ensures { PlanArrived (plan_in work.now p l) output.old (carrying_answer result) output.new }
{
    if POSITIONS < p {
        return refused(34, 0);
    }
    if LINKS < l {
        return refused(34, 0);
    }
    let needed = 2 + p + 2 * l;
    if output.len() < needed {
        return refused(35, needed);
    }
    write_plan(work, p, l, output);
    Ok(PlanCounts {
        positions: p,
        links: l,
    })
}
