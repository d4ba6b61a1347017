// Pairs in two parallel arrays, each linked to the next equal pair: the first `m` are edges of a table, those behind them are entries of a trace.
// Parts of the calls; no host calls these.
#![tactic(auto)]

ghost use Rattle.std.specs.Prelude.{◌≡◌, ℕ, ◌+◌, ◌<◌, ◌≤◌, leb, length, get_or, cond};
ghost use Rattle.edit_links.specs.Links.{Pairs, Chained, Linked, Row};

use table::slices;

// Chains the first `count` pairs by source: before each pair, the last one with its source. Numbers are one more than places, and 0 is none.
fn chain(sources: &[u16], count: usize, n: usize, heads: &mut [u16], before: &mut [u16])
    requires count_in_bounds { (count ≤ length sources.now) × (count ≤ length before.old) × (n ≤ length heads.old) × (count ≤ 8192) }
    requires by_index { ((x : ℕ) → x < count → get_or sources.now x 0 < n) × ((v : ℕ) → get_or heads.old v 0 ≡ 0) }
    ensures { Chained sources.now count heads.new before.new }
{
    for x in 0..count {
        let v = usize::from(sources[x]);
        before[x] = heads[v];
        heads[v] = (x + 1) as u16;
    }
}

// The first, if it is an entry, else the second.
fn entry_or(m: usize, x: usize, head: u16) -> u16
    requires { x < 8192 }
    ensures { result ≡ cond (leb m x) x head }
{
    if m <= x { x as u16 } else { head }
}

// Links the pairs of source v, from the last back along their chain. `head` begins with `count` for each target.
fn link_row(
    sources: &[u16],
    targets: &[u16],
    m: usize,
    count: usize,
    n: usize,
    v: usize,
    heads: &[u16],
    before: &[u16],
    head: &mut [u16],
    links: &mut [u16],
)
    requires pairs { Pairs sources.now targets.now count n × (v < n) × Chained sources.now count heads.now before.now }
    requires n_in_bounds { (n ≤ length heads.now) × (count ≤ length before.now) × (n ≤ length head.old) × (count ≤ length links.old) }
    requires by_index { ((w : ℕ) → w < n → get_or head.old w 0 ≡ count) × (m ≤ count) }
    ensures { Row sources.now targets.now m count v 0 links.old links.new }
{
    let mut p = heads[v] as usize;
    while 0 < p {
        let x = p - 1;
        let w = targets[x] as usize;
        let next = head[w];
        links[x] = next;
        head[w] = entry_or(m, x, next);
        p = before[x] as usize;
    }
}

// Links the pairs of every source. `head` is work memory.
fn link_rows(
    sources: &[u16],
    targets: &[u16],
    m: usize,
    count: usize,
    n: usize,
    heads: &[u16],
    before: &[u16],
    head: &mut [u16],
    links: &mut [u16],
)
    requires pairs { Pairs sources.now targets.now count n × (m ≤ count) × Chained sources.now count heads.now before.now }
    requires n_in_bounds { (n ≤ length heads.now) × (count ≤ length before.now) × (n ≤ length head.old) × (count ≤ length links.old) }
    ensures { Linked sources.now targets.now m count links.new }
{
    for v in 0..n {
        slices::fill(head, 0, n, count as u16);
        link_row(sources, targets, m, count, n, v, heads, before, head, links);
    }
}

// Links each of `count` pairs to the next equal entry. The other buffers are work memory, `heads` with zeros.
pub fn link_pairs(
    sources: &[u16],
    targets: &[u16],
    m: usize,
    count: usize,
    n: usize,
    heads: &mut [u16],
    before: &mut [u16],
    head: &mut [u16],
    links: &mut [u16],
)
    requires pairs { Pairs sources.now targets.now count n × (m ≤ count) × ((v : ℕ) → get_or heads.old v 0 ≡ 0) }
    requires n_in_bounds { (n ≤ length heads.old) × (count ≤ length before.old) × (n ≤ length head.old) × (count ≤ length links.old) }
    ensures { Linked sources.now targets.now m count links.new }
{
    chain(sources, count, n, heads, before);
    link_rows(sources, targets, m, count, n, heads, before, head, links);
}
