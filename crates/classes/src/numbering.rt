// A part of the calls that write classes; no host calls it.
// The classes of a preorder on n vertices that is given by its marks.
ghost use Rattle.std.specs.Prelude.{◌≡◌, ◌+◌, ◌<◌, ◌≤◌, length, set};
ghost use Rattle.theory.specs.Logic.Range.{first, tabulate};
ghost use Rattle.theory.specs.Classes.Reduction.{same_class, lowest, class_count, class_number};
ghost use Rattle.table.specs.Limits.{vertex_limit};
ghost use Rattle.table.specs.Answers.{written};
ghost use Rattle.marks.specs.Marks.{marks_length, relation};
ghost use Rattle.marks.specs.MarkReading.{read_bits};
ghost use Rattle.classes.specs.Numbering.{PreorderMarks, Numbered};

use marks::packed::is_marked;
use marks::reading::read_bits;
use table::limits::VERTICES;
use words::{lowest, rest};

// The lowest member of v's class from `from` on, below `end`; `end` where there is none. Of the bits of v's row only those that are set
// are asked for the other direction.
fn lowest_between(marks: &[u8], n: usize, v: usize, from: usize, end: usize) -> usize
    requires v_lt_n { (v < n) × (n ≤ vertex_limit) × (marks_length n ≤ length marks.now) }
    requires from_le_end { (from ≤ end) × (end ≤ n) × (end ≤ from + read_bits) }
    ensures { result ≡ first (λ u. same_class (relation n marks.now) u v) from end }
{
    let mut left = read_bits(marks, v * n + from, end - from);
    while left != 0 {
        let u = from + lowest(left);
        if is_marked(marks, n, u, v) {
            return u;
        }
        left = rest(left);
    }
    end
}

// The lowest member of v's class.
fn lowest_member(marks: &[u8], n: usize, v: usize) -> usize
    requires { (v < n) × (n ≤ vertex_limit) × (marks_length n ≤ length marks.now) }
    ensures { result ≡ lowest n (relation n marks.now) v }
{
    let mut w = 0;
    while w < n {
        // of the row at most 56 vertices are asked at once
        let end = n.min(w + 56);
        let low = lowest_between(marks, n, v, w, end);
        if low < end {
            return low;
        }
        w = end;
    }
    n
}

// Gives v its class, where k classes have a lower member: class k with the representative v if v is the lowest member, else the class of
// the lowest member. Returns the number of classes so far.
fn number_vertex(
    marks: &[u8],
    n: usize,
    v: usize,
    k: usize,
    classes: &mut [u16],
    reps: &mut [u16],
) -> usize
    requires preorder_marks { PreorderMarks n marks.now }
    requires v_lt_n { (v < n) × (n ≤ length classes.old) × (n ≤ length reps.old) }
    requires numbered { Numbered n (relation n marks.now) v k classes.old reps.old }
    ensures classes_value { classes.new ≡ set classes.old v (class_number n (relation n marks.now) v) }
    ensures numbered_2 { Numbered n (relation n marks.now) (v + 1) result classes.new reps.new }
{
    let low = lowest_member(marks, n, v);
    if low == v {
        classes[v] = k as u16;
        reps[k] = v as u16;
        return k + 1;
    }
    classes[v] = classes[low];
    k
}

// Writes the class of each vertex, and the lowest member of each class; returns the number of classes.
pub fn number_classes(marks: &[u8], n: usize, classes: &mut [u16], reps: &mut [u16]) -> usize
    requires preorder_marks { PreorderMarks n marks.now }
    requires n_in_bounds { (n ≤ length classes.old) × (n ≤ length reps.old) }
    ensures classes_value { classes.new ≡ written (tabulate n (class_number n (relation n marks.now))) classes.old }
    ensures numbered { Numbered n (relation n marks.now) n result classes.new reps.new }
{
    let mut k = 0;
    for v in 0..n {
        k = number_vertex(marks, n, v, k, classes, reps);
    }
    k
}

// Writes the class of each vertex; returns the number of classes.
pub fn fill_classes(marks: &[u8], n: usize, classes: &mut [u16]) -> usize
    requires preorder_marks { PreorderMarks n marks.now }
    requires n_in_bounds { n ≤ length classes.old }
    ensures value { result ≡ class_count n (relation n marks.now) }
    ensures classes_value { classes.new ≡ written (tabulate n (class_number n (relation n marks.now))) classes.old }
{
    let mut reps = [0u16; VERTICES];
    number_classes(marks, n, classes, &mut reps)
}
