// The report on a game table: reads it from standard input and prints what `report_findings` finds.
#![tactic(auto)]

mod print;

ghost use Rattle.std.specs.Prelude.{◌*◌, ◌≤◌, length};
ghost use Rattle.report_findings.specs.Words.{read_limit};
ghost use Rattle.report_findings.specs.ReportMemory.{AtMost};
ghost use Rattle.report.specs.Page.{OnPage};

use report_findings::{Report, findings};
use std::io::Read;
use table::Sizes;
use table::limits::{PAIR_BYTES, TABLE_WORDS, VERTICES};

// Reading stops after a word more than the longest table has.
const READ_WORDS: usize = TABLE_WORDS + 1;

// Output is written in blocks of so many bytes.
const PAGE: usize = 4096;

// The first lines of an accepted game: its sizes, passes and classes. Like those below, returns where the page goes on.
fn print_sizes(
    rt: &impl Print,
    page: &mut [u8],
    at: usize,
    sizes: Sizes,
    passes: u32,
    classes: usize,
) -> usize
    requires { OnPage (length page.old) at }
    ensures { OnPage (length page.old) result }
{
    let a = print::two(
        rt,
        page,
        at,
        b"game ",
        sizes.vertices as u64,
        b" ",
        sizes.different as u64,
    );
    let b = print::one(rt, page, a, b"passes ", passes as u64);
    print::one(rt, page, b, b"classes ", classes as u64)
}

// The last lines: the sums, and the sizes of the reduced game.
fn print_sums(rt: &impl Print, page: &mut [u8], at: usize, report: Report) -> usize
    requires { OnPage (length page.old) at }
    ensures { OnPage (length page.old) result }
{
    let totals = report.totals;
    let a = print::two(
        rt,
        page,
        at,
        b"total ",
        totals.members as u64,
        b" ",
        totals.edges as u64,
    );
    print::two(
        rt,
        page,
        a,
        b"reduced ",
        report.vertices as u64,
        b" ",
        report.edges as u64,
    )
}

// All lines of an accepted game.
fn print_accepted(
    rt: &impl Print,
    page: &mut [u8],
    sizes: Sizes,
    report: Report,
    classes: &[u16],
    members: &[u16],
    edges: &[u16],
) -> usize
    requires on_page { OnPage (length page.old) 0 × (sizes.vertices ≤ length classes.now) }
    requires classes_in_bounds { (report.classes ≤ length members.now) × (report.classes ≤ length edges.now) }
    ensures { OnPage (length page.old) result }
{
    let a = print_sizes(rt, page, 0, sizes, report.passes, report.classes);
    let b = print::vertices(rt, page, a, classes, sizes.vertices);
    let c = print::classes(rt, page, b, members, edges, report.classes);
    print_sums(rt, page, c, report)
}

// The report's lines. A refusal is the only one.
fn print_lines(
    rt: &impl Print,
    page: &mut [u8],
    report: Report,
    classes: &[u16],
    members: &[u16],
    edges: &[u16],
) -> usize
    requires on_page { OnPage (length page.old) 0 × AtMost (length classes.now) report.verdict }
    requires classes_in_bounds { (report.classes ≤ length members.now) × (report.classes ≤ length edges.now) }
    ensures { OnPage (length page.old) result }
{
    let verdict = report.verdict;
    match verdict {
        Err(refusal) => print::two(
            rt,
            page,
            0,
            b"refused ",
            refusal.number as u64,
            b" at ",
            refusal.place as u64,
        ),
        Ok(sizes) => print_accepted(rt, page, sizes, report, classes, members, edges),
    }
}

// Prints them by way of a page, a local array.
fn print_report(rt: &impl Print, report: Report, classes: &[u16], members: &[u16], edges: &[u16])
    requires at_most { AtMost (length classes.now) report.verdict }
    requires classes_in_bounds { (report.classes ≤ length members.now) × (report.classes ≤ length edges.now) }
{
    let mut page = [0u8; PAGE];
    let end = print_lines(rt, &mut page, report, classes, members, edges);
    print::flush(rt, &page, end);
}

// Lends the arrays: the words that are read, and memory for any game that is accepted.
fn report_bytes(rt: &impl Print, bytes: &[u8])
    requires { length bytes.now ≤ 2 * read_limit }
{
    let mut words = [0u16; READ_WORDS];
    let mut marks = [0u8; PAIR_BYTES];
    let mut spare = [0u8; PAIR_BYTES];
    let mut output = [0u16; TABLE_WORDS];
    let mut classes = [0u16; VERTICES];
    let mut members = [0u16; VERTICES];
    let mut edges = [0u16; VERTICES];
    let report = findings::find_from_bytes(
        bytes,
        &mut words,
        &mut marks,
        &mut spare,
        &mut output,
        &mut classes,
        &mut members,
        &mut edges,
    );
    print_report(rt, report, &classes, &members, &edges);
}

// Reads standard input until the buffer is full, the input ends or a read fails. Returns how many bytes were read.
fn read_full(rt: &impl Input, buffer: &mut [u8]) -> usize
    ensures { result ≤ length buffer.new }
{
    let mut input = rt.reader();
    let mut count = 0;
    while count < buffer.len() {
        let Ok(more) = input.read(&mut buffer[count..]) else {
            return count;
        };
        if more == 0 {
            return count;
        }
        count += more;
    }
    count
}

fn main(rt: HostRuntime) {
    let mut bytes = [0u8; 2 * READ_WORDS];
    let count = read_full(&rt, &mut bytes);
    report_bytes(&rt, &bytes[..count]);
}
