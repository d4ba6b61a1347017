// Words of 64 bits. Parts of the calls; no host calls these.
#![tactic(auto)]

pub mod members;

ghost use Rattle.std.specs.Prelude.{◌≡◌, ℕ, ◌<◌, ◌≤◌, eqb};
ghost use Rattle.theory.specs.Logic.Bools.{◌&◌, ◌or◌};
ghost use Rattle.theory.specs.Logic.Range.{any_below, count, first};
ghost use Rattle.words.specs.Word.{word_bits, digit, Lowest, Rest};

// Whether a bit is set.
pub fn is_some(word: u64) -> bool
    ensures { result ≡ any_below word_bits (digit word) }
{
    word != 0
}

// How many bits are set.
pub fn size(word: u64) -> u32
    ensures { result ≡ count word_bits (digit word) }
{
    u64::count_ones(word)
}

// The lowest set bit.
pub fn lowest(word: u64) -> usize
    requires { word ≡ 0 → ⊥ }
    ensures { Lowest word result }
{
    u64::trailing_zeros(word) as usize
}

// The word without its lowest set bit.
pub fn rest(word: u64) -> u64
    requires { word ≡ 0 → ⊥ }
    ensures { Rest word result }
{
    word & (word - 1)
}

// The first set bit from k on; 64 where there is none.
pub fn first_from(word: u64, k: usize) -> usize
    requires { k ≤ word_bits }
    ensures { result ≡ first (digit word) k word_bits }
{
    if 64 <= k {
        return 64;
    }
    let rest = word >> k;
    if rest == 0 {
        return 64;
    }
    k + (u64::trailing_zeros(rest) as usize)
}

// The word with bit k set, if `yes`.
pub fn with(word: u64, k: usize, yes: bool) -> u64
    requires { k < word_bits }
    ensures { (j : ℕ) → j < word_bits → digit result j ≡ ((eqb j k & yes) or digit word j) }
{
    if yes { word | (1u64 << k) } else { word }
}
