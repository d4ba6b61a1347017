// Marks in memory, eight in a byte. Every read of a mark goes through here, so that callers know the relation and not its bytes.
ghost use Rattle.std.specs.Prelude.{◌≡◌, ℕ, ◌+◌, ◌*◌, ◌<◌, ◌≤◌, length, get_or};
ghost use Rattle.theory.specs.Logic.Range.{any_from};
ghost use Rattle.table.specs.Limits.{vertex_limit};
ghost use Rattle.marks.specs.Marks.{bytes_for, marks_length, InMarks, is_mark, relation, has_unused};
ghost use Rattle.marks.specs.MarkSearch.{has_mark};

use index::Run;

// How many bytes hold the marks of n vertices.
pub fn length_for(n: usize) -> usize
    requires { n ≤ vertex_limit }
    ensures { result ≡ marks_length n }
{
    (n * n).div_ceil(8)
}

// Whether mark i is set.
pub fn is_mark(marks: &[u8], i: usize) -> bool
    requires { InMarks marks.now i }
    ensures { result ≡ is_mark marks.now i }
{
    (marks[i / 8] >> (i % 8)) & 1 == 1
}

// Whether the pair (v, w) of n vertices is marked.
pub fn is_marked(marks: &[u8], n: usize, v: usize, w: usize) -> bool
    requires { (v < n) × (w < n) × (n ≤ vertex_limit) × (marks_length n ≤ length marks.now) }
    ensures { result ≡ relation n marks.now v w }
{
    is_mark(marks, v * n + w)
}

// Whether a bit of the last byte is set that is none of the `size` marks. Bytes beyond don't count.
pub fn has_unused(marks: &[u8], size: usize) -> bool
    requires { bytes_for size ≤ length marks.now }
    ensures { result ≡ has_unused marks.now size }
{
    if size % 8 == 0 {
        return false;
    }
    (marks[size / 8] >> (size % 8)) != 0
}

// Whether a target y of the run has the wanted mark, the innermost loop of the pair test; y's mark is number base + y * stride.
pub fn finds(
    marks: &[u8],
    targets: &[u16],
    ys: Run,
    base: usize,
    stride: usize,
    wanted: bool,
) -> bool
    requires end_in_bounds { ys.end ≤ length targets.now }
    requires by_index { (k : ℕ) → ys.from ≤ k → k < ys.end → InMarks marks.now (base + get_or targets.now k 0 * stride) }
    ensures { result ≡ any_from ys.from ys.end (has_mark marks.now targets.now base stride wanted) }
{
    let end = ys.end;
    let mut k = ys.from;
    // a loop that yields its value by break, the form that document 01 names for this search
    let found = loop {
        if k >= end {
            break false;
        }
        let at = base + (targets[k] as usize) * stride;
        if is_mark(marks, at) == wanted {
            break true;
        }
        k += 1;
    };
    found
}
