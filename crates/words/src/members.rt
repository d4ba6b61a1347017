// The numbers in a list of words, from one to the next. A part of the calls; no host calls it.
ghost use Rattle.std.specs.Prelude.{◌≡◌, ◌*◌, ◌^◌, ◌≤◌, length};
ghost use Rattle.theory.specs.Logic.Range.{first};
ghost use Rattle.words.specs.Word.{word_bits};
ghost use Rattle.words.specs.Words.{has};

use crate::first_from;

// The first number from `from` on, below `end`, that is in the words; `end` where there is none.
pub fn next_member(words: &[u64], from: usize, end: usize) -> usize
    requires { (from ≤ end) × (end ≤ word_bits * length words.now) × (end ≤ 2 ^ 32) }
    ensures { result ≡ first (has words.now) from end }
{
    let mut at = from;
    while at < end {
        let j = at / 64;
        let bit = first_from(words[j], at % 64);
        at = j * 64 + bit;
        if bit < 64 {
            if at < end {
                return at;
            }
        }
    }
    end
}
