// The entries of a trace run over a table's edges, which are linked to the entries that name them: no table between is written. Parts of the call; no
// host calls these.
#![tactic(auto)]

ghost use Rattle.std.specs.Prelude.{◌≡◌, cond, ℕ, ◌+◌, ◌*◌, ◌<◌, ◌≤◌, [], ◌∷◌, eqb, leb, ltb, length, get_or};
ghost use Rattle.table.specs.Limits.{vertex_limit, edge_limit};
ghost use Rattle.theory.specs.Logic.Bools.{◌&◌};
ghost use Rattle.theory.specs.Logic.Range.{first};
ghost use Rattle.table.specs.Table.{vertex_count, table_edges, table_length, table_in};
ghost use Rattle.table.specs.Answers.{Clean, written};
ghost use Rattle.table.specs.Listing.{Appended};
ghost use Rattle.edit_rules.specs.declared.Edit.TheVariants.{Arrival, Leaving};
ghost use Rattle.edit_rules.specs.EditParts.{Formed};
ghost use Rattle.edit_links.specs.Links.{Pairs, Linked};
ghost use Rattle.edit_trace.specs.Trace.{entry_count, trace_rows};
ghost use Rattle.edit_run.specs.Gathered.{outside, JoinedWords, Gathered, edge_words};
ghost use Rattle.edit_run.specs.Turned.{stepped, kept_pairs};
ghost use Rattle.edit_run.specs.Tally.{Tallied, EnteredPair, Halted, Started, RestJudged};
ghost use Rattle.edit_run.specs.RunResult.{RunResult};

use edit_links::link_pairs;
use edit_rules::{Edit, judge_edit};
use index::count_sources;
use table::limits::{EDGES, VERTICES};
use table::{NoCounts, Refusal, refused, slices};

// The most edges and entries together.
const LINKED: usize = EDGES + EDGES;

// What becomes of the entries: whether all are accepted, how many are done, and the edges of the table then.
#[derive(Clone, Copy)]
pub struct Entries {
    pub verdict: Result<NoCounts, Refusal>,
    pub done: usize,
    pub edges: usize,
}

// How a run over pairs ends: whether all entries are accepted, how many are done, the edges then, and the most that there were.
#[derive(Clone, Copy)]
pub struct Halt {
    pub verdict: Result<NoCounts, Refusal>,
    pub done: usize,
    pub edges: usize,
    pub most: usize,
}

// An edge that is there leaves, any other arrives.
fn find_edit(there: bool) -> Edit
    ensures { result ≡ cond there Leaving Arrival }
{
    if there { Edit::Leaving } else { Edit::Arrival }
}

// How many copies of an edge there are after an entry that finds c of them.
fn flip(c: u16) -> u16
    ensures { result ≡ cond (eqb c 0) 1 0 }
{
    if c == 0 { 1 } else { 0 }
}

// A number of edges after an entry that finds c copies.
fn step(k: usize, c: usize) -> usize
    requires { (c ≤ k) × (k ≤ edge_limit) }
    ensures { result ≡ stepped k c }
{
    if c == 0 { k + 1 } else { k - c }
}

// Judges entry i by the copies of its edge and the edges of its source, and takes it into these counts; the edges then.
fn enter(
    sources: &[u16],
    targets: &[u16],
    m: usize,
    count: usize,
    n: usize,
    size: usize,
    links: &[u16],
    i: usize,
    edges: usize,
    copies: &mut [u16],
    degrees: &mut [u16],
) -> Result<usize, Refusal>
    requires pairs { Pairs sources.now targets.now count n × (m ≤ count) × Linked sources.now targets.now m count links.now × (m + i < count) }
    requires n_le_vertex_limit { (n ≤ vertex_limit) × (edges ≤ edge_limit) × (count ≤ length links.now) × (count < length copies.old) × (n ≤ length degrees.old) }
    requires tallied { Tallied sources.now targets.now m count i copies.old degrees.old edges }
    ensures { EnteredPair sources.now targets.now m count n size i result copies.old degrees.old copies.new degrees.new }
{
    let y = m + i;
    let c = copies[y];
    let k = c as usize;
    let s = sources[y] as usize;
    let t = targets[y] as usize;
    let degree = degrees[s] as usize;
    let there = 0 < k;
    judge_edit(n, edges, size, find_edit(there), s, t, there, k < degree)?;
    let next = links[y] as usize;
    copies[next] = flip(c);
    degrees[s] = step(degree, k) as u16;
    Ok(step(edges, k))
}

// Takes the entries into the counts one by one, until one is refused.
fn run_pairs(
    sources: &[u16],
    targets: &[u16],
    m: usize,
    count: usize,
    n: usize,
    size: usize,
    links: &[u16],
    copies: &mut [u16],
    degrees: &mut [u16],
) -> Halt
    requires pairs { Pairs sources.now targets.now count n × (m ≤ count) × Linked sources.now targets.now m count links.now }
    requires n_le_vertex_limit { (n ≤ vertex_limit) × (m ≤ edge_limit) × (count ≤ length links.now) × (count < length copies.old) × (n ≤ length degrees.old) }
    requires tallied { Tallied sources.now targets.now m count 0 copies.old degrees.old m }
    ensures { Halted sources.now targets.now m count n size result copies.new }
{
    let mut edges = m;
    let mut most = m;
    for done in 0..count - m {
        let entry = enter(
            sources, targets, m, count, n, size, links, done, edges, copies, degrees,
        );
        match entry {
            Ok(now) => edges = now,
            Err(refusal) => {
                return Halt {
                    verdict: Err(refusal),
                    done,
                    edges,
                    most,
                };
            }
        }
        most = most.max(edges);
    }
    Halt {
        verdict: Ok(NoCounts {}),
        done: count - m,
        edges,
        most,
    }
}

// Whether pair x is an edge or an arrival that no entry below `end` names.
fn is_kept(copies: u16, link: usize, end: usize) -> bool
    ensures { result ≡ (eqb copies 0 & leb end link) }
{
    copies == 0 && end <= link
}

// Puts a pair behind the first e pairs, if it is kept. Returns how many there are then.
fn put_pair(keep: bool, s: u16, t: u16, kept: &mut [u16], ends: &mut [u16], e: usize) -> usize
    requires { (e < length kept.old) × (e < length ends.old) × (e < 8192) }
    ensures { Appended (cond keep ((s, t) ∷ []) []) e kept.old kept.new ends.old ends.new result }
{
    if keep {
        kept[e] = s;
        ends[e] = t;
        return e + 1;
    }
    e
}

// Lists the pairs below `end` that are edges or arrivals and that no entry below `end` names, in sequence. Returns how many there are.
fn keep_pairs(
    sources: &[u16],
    targets: &[u16],
    copies: &[u16],
    links: &[u16],
    end: usize,
    kept: &mut [u16],
    ends: &mut [u16],
) -> usize
    requires end_bound { (end ≤ 8192) × (end ≤ length sources.now) × (end ≤ length targets.now) × (end ≤ length copies.now) × (end ≤ length links.now) }
    requires end_in_bounds { (end ≤ length kept.old) × (end ≤ length ends.old) }
    ensures { Appended (kept_pairs sources.now targets.now copies.now links.now end end) 0 kept.old kept.new ends.old ends.new result }
{
    let mut e = 0;
    for x in 0..end {
        let keep = is_kept(copies[x], usize::from(links[x]), end);
        e = put_pair(keep, sources[x], targets[x], kept, ends, e);
    }
    e
}

// The first of the first entries that has an end not below n, or their number.
fn find_outside(trace: &[u16], n: usize) -> usize
    requires { Clean (trace_rows trace.now) }
    ensures { result ≡ first (outside trace.now n) 0 (entry_count trace.now) }
{
    let count = trace[0] as usize;
    for i in 0..count {
        if n <= usize::from(trace[1 + i]) || n <= usize::from(trace[1 + count + i]) {
            return i;
        }
    }
    count
}

// The first m words of a buffer, and behind them the first k of another.
fn join(words: &mut [u16], a: &[u16], m: usize, b: &[u16], k: usize)
    requires { (m ≤ length a.now) × (k ≤ length b.now) × (m + k ≤ length words.old) }
    ensures { JoinedWords a.now m b.now k words.new }
{
    slices::copy(words, 0, a, m);
    slices::copy(words, m, b, k);
}

// The table's edges and behind them the first k entries, as pairs.
fn gather_pairs(
    buffer: &[u16],
    n: usize,
    m: usize,
    trace: &[u16],
    k: usize,
    sources: &mut [u16],
    targets: &mut [u16],
)
    requires formed { Formed (table_in buffer.now) n m × (table_length n m ≤ length buffer.now) × (k ≤ entry_count trace.now) }
    requires trace_len { (length trace.now ≡ 1 + 2 * entry_count trace.now) × (entry_count trace.now ≤ 4096) × (n ≤ vertex_limit) × (m ≤ edge_limit) }
    requires k_in_bounds { (m + k ≤ length sources.old) × (m + k ≤ length targets.old) }
    ensures { Gathered (table_in buffer.now) trace.now m k sources.new targets.new }
{
    let count = trace[0] as usize;
    let at = 2 + 2 * n;
    join(sources, &buffer[at..], m, &trace[1..], k);
    join(targets, &buffer[at + m..], m, &trace[1 + count..], k);
}

// Puts e edges into the table that begins the buffer in place of its own, and zeros behind them up to a table of `top` edges.
fn put_edges(buffer: &mut [u16], n: usize, e: usize, sources: &[u16], ends: &[u16], top: usize)
    requires n_value { (n ≡ vertex_count buffer.old) × (n ≤ vertex_limit) × (e ≤ edge_limit) × (e ≤ top) × (top ≤ edge_limit) }
    requires top_in_bounds { (table_length n top ≤ length buffer.old) × (e ≤ length sources.now) × (e ≤ length ends.now) }
    requires buffer_in_bounds { table_length (vertex_count buffer.old) (table_edges buffer.old) ≤ length buffer.old }
    ensures { buffer.new ≡ written (edge_words buffer.old e sources.now ends.now top) buffer.old }
{
    let at = 2 + 2 * n;
    buffer[1] = e as u16;
    slices::copy(buffer, at, sources, e);
    slices::copy(buffer, at + e, ends, e);
    slices::fill(buffer, at + 2 * e, 2 * (top - e), 0);
}

// Links the pairs, and counts the copies at the first entry of each pair and the edges of each source, over zeros.
fn link_all(
    sources: &[u16],
    targets: &[u16],
    m: usize,
    count: usize,
    n: usize,
    links: &mut [u16],
    copies: &mut [u16],
    degrees: &mut [u16],
)
    requires pairs { Pairs sources.now targets.now count n × (m ≤ count) × (m ≤ edge_limit) × (n ≤ vertex_limit) }
    requires count_in_bounds { (count ≤ length links.old) × (count < length copies.old) × (n ≤ length degrees.old) }
    requires by_index { ((v : ℕ) → get_or copies.old v 0 ≡ 0) × ((v : ℕ) → get_or degrees.old v 0 ≡ 0) }
    ensures { Started sources.now targets.now m count links.new copies.new degrees.new }
{
    let mut heads = [0u16; VERTICES];
    let mut head = [0u16; VERTICES];
    let mut before = [0u16; LINKED];
    link_pairs(
        sources,
        targets,
        m,
        count,
        n,
        &mut heads,
        &mut before,
        &mut head,
        links,
    );
    count_sources(links, 0, m, count + 1, copies);
    count_sources(sources, 0, m, n, degrees);
}

// The run's verdict, once it stands before entry `done`: entry k, if there is one, has an end not below n.
fn judge_rest(
    trace: &[u16],
    k: usize,
    more: bool,
    done: usize,
    verdict: Result<NoCounts, Refusal>,
) -> Result<NoCounts, Refusal>
    requires { (length trace.now ≡ 1 + 2 * entry_count trace.now) × (done ≤ k) × (k ≤ entry_count trace.now) × (more ≡ ltb k (entry_count trace.now)) }
    ensures { RestJudged trace.now k done verdict result }
{
    if done < k {
        return verdict;
    }
    if more {
        return refused(37, trace[1 + done] as usize);
    }
    verdict
}

// Runs the entries over linked pairs, and puts the edges that they leave into the buffer.
fn settle(
    buffer: &mut [u16],
    n: usize,
    m: usize,
    trace: &[u16],
    k: usize,
    more: bool,
    sources: &[u16],
    targets: &[u16],
    links: &[u16],
    copies: &mut [u16],
    degrees: &mut [u16],
) -> Entries
    requires formed { Formed (table_in buffer.old) n m × (k ≡ first (outside trace.now n) 0 (entry_count trace.now)) × (more ≡ ltb k (entry_count trace.now)) }
    requires trace_len { (length trace.now ≡ 1 + 2 * entry_count trace.now) × Gathered (table_in buffer.old) trace.now m k sources.now targets.now }
    requires pairs { Pairs sources.now targets.now (m + k) n × Started sources.now targets.now m (m + k) links.now copies.old degrees.old }
    requires k_in_bounds { (m + k ≤ length links.now) × (m + k < length copies.old) × (n ≤ length degrees.old) }
    ensures { RunResult buffer.old trace.now n result buffer.new }
{
    let len = buffer.len();
    let halt = run_pairs(sources, targets, m, m + k, n, len, links, copies, degrees);
    let mut kept = [0u16; LINKED];
    let mut ends = [0u16; LINKED];
    let done = halt.done;
    let edges = keep_pairs(
        sources,
        targets,
        copies,
        links,
        m + done,
        &mut kept,
        &mut ends,
    );
    put_edges(buffer, n, edges, &kept, &ends, halt.most);
    let judged = halt.verdict;
    let verdict = judge_rest(trace, k, more, done, judged);
    Entries {
        verdict,
        done,
        edges,
    }
}

// Makes the entries, of which the first k have both ends below n; `more` tells whether there is one that has not.
fn run_first(buffer: &mut [u16], n: usize, m: usize, trace: &[u16], k: usize, more: bool) -> Entries
    requires formed { Formed (table_in buffer.old) n m × Clean (trace_rows trace.now) }
    requires k_value { (k ≡ first (outside trace.now n) 0 (entry_count trace.now)) × (more ≡ ltb k (entry_count trace.now)) }
    ensures { RunResult buffer.old trace.now n result buffer.new }
{
    let mut sources = [0u16; LINKED];
    let mut targets = [0u16; LINKED];
    let mut links = [0u16; LINKED];
    let mut copies = [0u16; LINKED + 1];
    let mut degrees = [0u16; VERTICES];
    gather_pairs(buffer, n, m, trace, k, &mut sources, &mut targets);
    link_all(
        &sources,
        &targets,
        m,
        m + k,
        n,
        &mut links,
        &mut copies,
        &mut degrees,
    );
    settle(
        buffer,
        n,
        m,
        trace,
        k,
        more,
        &sources,
        &targets,
        &links,
        &mut copies,
        &mut degrees,
    )
}

// Makes the entries in the table that begins the buffer, until one is refused. What lies between is never seen, so no table between is written.
pub fn run_entries(buffer: &mut [u16], n: usize, m: usize, trace: &[u16]) -> Entries
    requires { Formed (table_in buffer.old) n m × Clean (trace_rows trace.now) }
    ensures { RunResult buffer.old trace.now n result buffer.new }
{
    let k = find_outside(trace, n);
    let count = trace[0] as usize;
    // Two calls: the compiler puts a function that is called once into its caller, so that the order would run with these arrays on its stack.
    if k < count {
        return run_first(buffer, n, m, trace, k, true);
    }
    run_first(buffer, n, m, trace, k, false)
}
