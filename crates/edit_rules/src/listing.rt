// Searches among a table's edges, and the edges that a leaving keeps.
ghost use Rattle.std.specs.Prelude.{◌≡◌, ◌+◌, ◌<◌, ◌≤◌, length, true};
ghost use Rattle.theory.specs.Logic.Range.{first};
ghost use Rattle.table.specs.Listing.{Appended};
ghost use Rattle.edit_rules.specs.Edges.{edges_in, others};
ghost use Rattle.edit_rules.specs.EditParts.{Formed, leads, edges_part, Scanned, Scanning};

use crate::Scan;
use table::slices;

// Whether edge j leads from s to t or, where `there` is false, from s to another vertex.
fn leads_so(table: &[u16], n: usize, m: usize, j: usize, s: usize, t: usize, there: bool) -> bool
    requires { Formed table.now n m × (j < m) }
    ensures { result ≡ leads table.now s t there j }
{
    if table[2 + 2 * n + j] as usize != s {
        return false;
    }
    let hit = table[2 + 2 * n + m + j] as usize == t;
    hit == there
}

// Takes edge j into a scan for the edges from s to t.
fn scan_edge(table: &[u16], n: usize, m: usize, j: usize, s: usize, t: usize, scan: Scan) -> Scan
    requires formed { Formed table.now n m × (j < m) }
    requires scanning { Scanning table.now m s t j scan }
    ensures { Scanning table.now m s t (j + 1) result }
{
    if leads_so(table, n, m, j, s, t, false) {
        return Scan {
            another: true,
            ..scan
        };
    }
    if scan.copy < m {
        return scan;
    }
    if leads_so(table, n, m, j, s, t, true) {
        return Scan { copy: j, ..scan };
    }
    scan
}

// Finds the first edge from s to t, and whether an edge leads from s elsewhere, in one scan that ends once both are found.
pub fn scan_edges(table: &[u16], n: usize, m: usize, s: usize, t: usize) -> Scan
    requires { Formed table.now n m }
    ensures { Scanned table.now m s t result }
{
    let mut scan = Scan {
        copy: m,
        another: false,
    };
    for j in 0..m {
        scan = scan_edge(table, n, m, j, s, t, scan);
        if scan.another && scan.copy < m {
            return scan;
        }
    }
    scan
}

// The first edge from j on that leads from s to t, or m where there is none.
fn find_edge(table: &[u16], n: usize, m: usize, s: usize, t: usize, j: usize) -> usize
    requires { Formed table.now n m × (j ≤ m) }
    ensures { result ≡ first (leads table.now s t true) j m }
{
    for k in j..m {
        if leads_so(table, n, m, k, s, t, true) {
            return k;
        }
    }
    m
}

// Puts the edges from a on, below b, behind the first e edges. Returns how many there are then.
fn list_part(
    table: &[u16],
    n: usize,
    m: usize,
    a: usize,
    b: usize,
    sources: &mut [u16],
    ends: &mut [u16],
    e: usize,
) -> usize
    requires formed { Formed table.now n m × (a ≤ b) × (b ≤ m) }
    requires b_in_bounds { (e + b ≤ length sources.old + a) × (e + b ≤ length ends.old + a) × (e ≤ a) }
    ensures { Appended (edges_part table.now a b) e sources.old sources.new ends.old ends.new result }
{
    let count = b - a;
    slices::copy(sources, e, &table[2 + 2 * n + a..], count);
    slices::copy(ends, e, &table[2 + 2 * n + m + a..], count);
    e + count
}

// Lists the edges other than those from s to t, in sequence, those between two copies at once, where the first copy was found. Returns how many
// there are.
pub fn list_others(
    table: &[u16],
    n: usize,
    m: usize,
    s: usize,
    t: usize,
    copy: usize,
    sources: &mut [u16],
    ends: &mut [u16],
) -> usize
    requires formed { Formed table.now n m × (copy ≡ first (leads table.now s t true) 0 m) }
    requires m_in_bounds { (m ≤ length sources.old) × (m ≤ length ends.old) }
    ensures { Appended (others s t (edges_in table.now)) 0 sources.old sources.new ends.old ends.new result }
{
    let mut e = list_part(table, n, m, 0, copy, sources, ends, 0);
    let mut j = copy + 1;
    while j < m {
        let k = find_edge(table, n, m, s, t, j);
        e = list_part(table, n, m, j, k, sources, ends, e);
        j = k + 1;
    }
    e
}
