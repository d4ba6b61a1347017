// The report's lines. They go into a page, which is written to standard output whenever it is full.
ghost use Rattle.std.specs.Prelude.{◌<◌, ◌≤◌, length};
ghost use Rattle.report.specs.Page.{OnPage};

use itoa::Buffer;

// Writes what the page holds before `at`. Output that cannot be written is lost.
pub fn flush(rt: &impl Print, page: &[u8], at: usize)
    requires { at ≤ length page.now }
{
    let _ = rt.write_all(&page[..at]);
}

// Where the next byte goes: at `at`, or at the start of a page that is full and is written first.
fn next_place(rt: &impl Print, page: &[u8], at: usize) -> usize
    requires { OnPage (length page.now) at }
    ensures { result < length page.now }
{
    if at < page.len() {
        return at;
    }
    flush(rt, page, at);
    0
}

// Puts a byte into the page. Returns where the page goes on.
fn push(rt: &impl Print, page: &mut [u8], at: usize, byte: u8) -> usize
    requires { OnPage (length page.old) at }
    ensures { OnPage (length page.old) result }
{
    let k = next_place(rt, page, at);
    page[k] = byte;
    k + 1
}

fn text(rt: &impl Print, page: &mut [u8], at: usize, s: &[u8]) -> usize
    requires { OnPage (length page.old) at }
    ensures { OnPage (length page.old) result }
{
    let mut k = at;
    for byte in s {
        k = push(rt, page, k, *byte);
    }
    k
}

// A word and a number.
fn labelled(rt: &impl Print, page: &mut [u8], at: usize, label: &[u8], x: u64) -> usize
    requires { OnPage (length page.old) at }
    ensures { OnPage (length page.old) result }
{
    let mut digits = Buffer::new();
    let k = text(rt, page, at, label);
    text(rt, page, k, digits.format(x).as_bytes())
}

// A line of a word and a number.
pub fn one(rt: &impl Print, page: &mut [u8], at: usize, label: &[u8], x: u64) -> usize
    requires { OnPage (length page.old) at }
    ensures { OnPage (length page.old) result }
{
    let k = labelled(rt, page, at, label, x);
    text(rt, page, k, b"\n")
}

// A line of a word and a number, and again.
pub fn two(
    rt: &impl Print,
    page: &mut [u8],
    at: usize,
    first: &[u8],
    x: u64,
    second: &[u8],
    y: u64,
) -> usize
    requires { OnPage (length page.old) at }
    ensures { OnPage (length page.old) result }
{
    let k = labelled(rt, page, at, first, x);
    one(rt, page, k, second, y)
}

// A line for each of the first n vertices.
pub fn vertices(rt: &impl Print, page: &mut [u8], at: usize, classes: &[u16], n: usize) -> usize
    requires { OnPage (length page.old) at × (n ≤ length classes.now) }
    ensures { OnPage (length page.old) result }
{
    let mut k = at;
    for (v, class) in classes[..n].iter().enumerate() {
        k = two(
            rt,
            page,
            k,
            b"vertex ",
            v as u64,
            b" class ",
            u64::from(*class),
        );
    }
    k
}

// A line for each of the first k classes.
pub fn classes(
    rt: &impl Print,
    page: &mut [u8],
    at: usize,
    members: &[u16],
    edges: &[u16],
    k: usize,
) -> usize
    requires { OnPage (length page.old) at × (k ≤ length members.now) × (k ≤ length edges.now) }
    ensures { OnPage (length page.old) result }
{
    let mut end = at;
    for (c, (members, edges)) in members[..k].iter().zip(&edges[..k]).enumerate() {
        let begun = labelled(rt, page, end, b"class ", c as u64);
        end = two(
            rt,
            page,
            begun,
            b" members ",
            u64::from(*members),
            b" edges ",
            u64::from(*edges),
        );
    }
    end
}
