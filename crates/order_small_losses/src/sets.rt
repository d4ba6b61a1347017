// Words as rows, one after another.
ghost use Rattle.std.specs.Prelude.{not, ◌+◌, ◌≤◌, length};
ghost use Rattle.theory.specs.Logic.Bools.{◌&◌};
ghost use Rattle.words.specs.Word.{word_bits, digit};
ghost use Rattle.order_sets.specs.Sets.{Is, united_in, apart_in};
ghost use Rattle.order_small_losses.specs.Words.{bit};

// What is in a and not in b.
pub fn without(a: u64, b: u64) -> u64
    ensures { Is word_bits (digit result) (λ x. digit a x & not (digit b x)) }
{
    a ^ (a & b)
}

// The words base + a for all a in `which`, united.
pub fn unite(words: &[u64], base: usize, which: u64) -> u64
    requires { base + word_bits ≤ length words.now }
    ensures { Is word_bits (digit result) (united_in word_bits (bit words.now) base (digit which)) }
{
    let mut out: u64 = 0;
    let mut left = which;
    while left != 0 {
        out = out | words[base + words::lowest(left)];
        left = words::rest(left);
    }
    out
}

// What is left of `from` without the words of all a in `which`. It ends early where nothing is left.
pub fn strip(words: &[u64], which: u64, from: u64) -> u64
    requires { word_bits ≤ length words.now }
    ensures { Is word_bits (digit result) (λ x. digit from x & not (united_in word_bits (bit words.now) 0 (digit which) x)) }
{
    let mut out = from;
    let mut left = which;
    while left != 0 {
        let less = without(out, words[words::lowest(left)]);
        if less == 0 {
            return 0;
        }
        out = less;
        left = words::rest(left);
    }
    out
}

// All in `which` whose words don't meet x.
pub fn apart_of(words: &[u64], which: u64, x: u64) -> u64
    requires { word_bits ≤ length words.now }
    ensures { Is word_bits (digit result) (λ a. digit which a & apart_in word_bits (bit words.now) a (digit x)) }
{
    let mut out: u64 = 0;
    let mut left = which;
    while left != 0 {
        let k = words::lowest(left);
        out = words::with(out, k, !words::is_some(words[k] & x));
        left = words::rest(left);
    }
    out
}
