// Marks read as the bits of a word, so that many are asked at a time.
ghost use Rattle.std.specs.Prelude.{◌≡◌, ℕ, ◌+◌, ◌*◌, ◌<◌, ◌≤◌, length};
ghost use Rattle.table.specs.Limits.{pair_limit};
ghost use Rattle.words.specs.Word.{word_bits, digit};
ghost use Rattle.marks.specs.Marks.{bytes_for, is_mark};
ghost use Rattle.marks.specs.MarkReading.{read_bits, BitsRead};

// The marks of `count` bytes, from byte `first` on.
fn read_whole(marks: &[u8], first: usize, count: usize) -> u64
    requires { (count ≤ 8) × (first + count ≤ length marks.now) }
    ensures { BitsRead marks.now (first * 8) (8 * count) result }
{
    let mut word = 0u64;
    for k in 0..count {
        word = word | (u64::from(marks[first + k]) << (8 * k));
    }
    word
}

// The marks from byte `first` on, as many as a word has bits; those beyond the buffer are 0.
fn read_word(marks: &[u8], first: usize) -> u64
    requires { first ≤ length marks.now }
    ensures { (k : ℕ) → k < word_bits → digit result k ≡ is_mark marks.now (first * 8 + k) }
{
    let count = marks.len() - first;
    // the compiler makes one load of a whole word
    if 8 <= count {
        return read_whole(marks, first, 8);
    }
    read_whole(marks, first, count)
}

// The `count` marks from mark `at` on. They may begin within a byte, so that a word has room for `read_bits` of them.
pub fn read_bits(marks: &[u8], at: usize, count: usize) -> u64
    requires { (count ≤ read_bits) × (at + count ≤ pair_limit) × (bytes_for (at + count) ≤ length marks.now) }
    ensures { BitsRead marks.now at count result }
{
    let word = read_word(marks, at / 8);
    (word >> (at % 8)) & ((1u64 << count) - 1)
}

// The `count` marks from mark `at` on, at most as many as a word has bits: in two parts, where one has no room for them.
pub fn read_wide(marks: &[u8], at: usize, count: usize) -> u64
    requires { (count ≤ word_bits) × (at + count ≤ pair_limit) × (bytes_for (at + count) ≤ length marks.now) }
    ensures { BitsRead marks.now at count result }
{
    if count <= 56 {
        return read_bits(marks, at, count);
    }
    let low = read_bits(marks, at, 56);
    let high = read_bits(marks, at + 56, count - 56);
    low | (high << 56)
}
