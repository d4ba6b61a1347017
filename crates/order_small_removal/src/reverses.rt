// The reverse of every loss is a loss too, where the round is of the governed bisimulation. A word of `next` that isn't in `losing` holds no loss,
// whatever its bits are.
ghost use Rattle.std.specs.Prelude.{◌<◌, ◌≤◌, length};
ghost use Rattle.words.specs.Word.{word_bits, digit};
ghost use Rattle.order_sets.specs.Reverses.{MoreIn, one_pair, column_pairs, CompletedIn};
ghost use Rattle.order_small_losses.specs.Words.{bit};

// One loss more, the pair (w, v); those that lose something then.
fn lose_pair(next: &mut [u64], losing: u64, w: usize, v: usize) -> u64
    requires { (word_bits ≤ length next.old) × (w < word_bits) × (v < word_bits) }
    ensures { MoreIn word_bits (one_pair w v) (bit next.old) (digit losing) (bit next.new) (digit result) }
{
    if (losing >> w) & 1 == 1 {
        next[w] = words::with(next[w], v, true);
        return losing;
    }
    next[w] = words::with(0, v, true);
    words::with(losing, w, true)
}

// The pairs of all in `which` with v; those that lose something then.
fn lose_column(next: &mut [u64], losing: u64, which: u64, v: usize) -> u64
    requires { (word_bits ≤ length next.old) × (v < word_bits) }
    ensures { MoreIn word_bits (column_pairs (digit which) v) (bit next.old) (digit losing) (bit next.new) (digit result) }
{
    let mut more = losing;
    let mut left = which;
    while left != 0 {
        more = lose_pair(next, more, words::lowest(left), v);
        left = words::rest(left);
    }
    more
}

// With `mirror`, the reverse of every loss; those that lose something then.
pub fn complete(next: &mut [u64], losing: u64, mirror: bool) -> u64
    requires { word_bits ≤ length next.old }
    ensures { CompletedIn word_bits mirror (bit next.old) (digit losing) (bit next.new) (digit result) }
{
    if !mirror {
        return losing;
    }
    let mut more = losing;
    let mut v = words::first_from(losing, 0);
    while v < 64 {
        let lost = next[v];
        more = lose_column(next, more, lost, v);
        v = words::first_from(losing, v + 1);
    }
    more
}
