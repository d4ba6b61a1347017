// Words put into a buffer from a place on, and the highest word from a place on. No host calls these.
ghost use Rattle.std.specs.Prelude.{◌≡◌, ℕ, ◌+◌, ◌<◌, ◌≤◌, length, get_or};
ghost use Rattle.theory.specs.Logic.Range.{tabulate};
ghost use Rattle.table.specs.Placing.{placed};
ghost use Rattle.table.specs.Highest.{highest_of};

// Puts `count` times the same word.
pub fn fill(words: &mut [u16], at: usize, count: usize, value: u16)
    requires { at + count ≤ length words.old }
    ensures { words.new ≡ placed at (tabulate count (λ i. value)) words.old }
{
    words[at..at + count].fill(value);
}

// Puts the first `count` words of another buffer.
pub fn copy(words: &mut [u16], at: usize, from: &[u16], count: usize)
    requires { (at + count ≤ length words.old) × (count ≤ length from.now) }
    ensures { words.new ≡ placed at (tabulate count (λ i. get_or from.now i 0)) words.old }
{
    // not `copy_from_slice`: the archives would call `memmove`
    for j in 0..count {
        words[at + j] = from[j];
    }
}

// Puts, for each of the first `count` picks, the word of another buffer that stands that far from `start`.
pub fn gather(words: &mut [u16], at: usize, from: &[u16], start: usize, picks: &[u16], count: usize)
    requires count_in_bounds { (at + count ≤ length words.old) × (count ≤ length picks.now) }
    requires by_index { (i : ℕ) → i < count → start + get_or picks.now i 0 < length from.now }
    ensures { words.new ≡ placed at (tabulate count (λ i. get_or from.now (start + get_or picks.now i 0) 0)) words.old }
{
    for c in 0..count {
        words[at + c] = from[start + usize::from(picks[c])];
    }
}

// The highest of `count` words from `at` on; 0 where there is none.
pub fn highest(words: &[u16], at: usize, count: usize) -> u16
    requires { at + count ≤ length words.now }
    ensures { result ≡ highest_of count (λ i. get_or words.now (at + i) 0) }
{
    let mut most = 0;
    for word in &words[at..at + count] {
        most = most.max(*word);
    }
    most
}
