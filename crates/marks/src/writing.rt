// A relation in rows of bits, written as marks.
ghost use Rattle.std.specs.Prelude.{◌≡◌, ◌+◌, ◌*◌, ◌/◌, ◌%◌, ◌^◌, ◌<◌, ◌≤◌, length, get_or};
ghost use Rattle.table.specs.Limits.{vertex_limit, pair_limit};
ghost use Rattle.words.specs.Word.{word_bits, digit};
ghost use Rattle.order_rows.specs.Bits.{row_words, cell};
ghost use Rattle.marks.specs.Marks.{bytes_for, marks_length};
ghost use Rattle.marks.specs.MarkWriting.{begun_byte, BitsWritten, RowWritten, RowsWritten, Copied};

use order_rows::row::{WORDS, end_of};

// The byte of mark `at` as far as it is written. A byte begins as 0, so that its unused bits end as 0.
fn begun(marks: &[u8], at: usize) -> u8
    requires { at / 8 < length marks.now }
    ensures { result ≡ begun_byte marks.now at }
{
    if at % 8 == 0 { 0 } else { marks[at / 8] }
}

// Writes the first `count` bits of a word as marks, from mark `at` on, all in one byte.
fn write_part(marks: &mut [u8], at: usize, word: u64, count: usize)
    requires { (at % 8 + count ≤ 8) × (bytes_for (at + count) ≤ length marks.old) }
    ensures { BitsWritten word at count marks.old marks.new }
{
    if count == 0 {
        return;
    }
    let old = begun(marks, at);
    let bits = word & ((1u64 << count) - 1);
    marks[at / 8] = old | ((bits << (at % 8)) as u8);
}

// Writes the first `count` bytes of a word as marks, from mark `at` on, the first of a byte; returns what is left of the word.
fn write_whole(marks: &mut [u8], at: usize, word: u64, count: usize) -> u64
    requires { (at % 8 ≡ 0) × (at / 8 + count ≤ length marks.old) }
    ensures { (result ≡ word / 2 ^ (8 * count)) × BitsWritten word at (8 * count) marks.old marks.new }
{
    let first = at / 8;
    let mut rest = word;
    for k in 0..count {
        marks[first + k] = (rest & 255) as u8;
        rest = rest >> 8;
    }
    rest
}

// Writes the first `count` bits of a word as marks, from mark `at` on: what is left of at's byte, whole bytes, the rest.
fn write_parts(marks: &mut [u8], at: usize, word: u64, count: usize)
    requires { (at + count ≤ pair_limit) × (bytes_for (at + count) ≤ length marks.old) }
    ensures { BitsWritten word at count marks.old marks.new }
{
    let gap = 8 - at % 8;
    if count <= gap {
        write_part(marks, at, word, count);
        return;
    }
    write_part(marks, at, word, gap);
    let whole = (count - gap) / 8;
    let rest = write_whole(marks, at + gap, word >> gap, whole);
    let done = gap + 8 * whole;
    write_part(marks, at + done, rest, count - done);
}

// Writes the first `count` bits of a word as marks, from mark `at` on.
fn write_bits(marks: &mut [u8], at: usize, word: u64, count: usize)
    requires { (count ≤ word_bits) × (at + count ≤ pair_limit) × (bytes_for (at + count) ≤ length marks.old) }
    ensures { BitsWritten word at count marks.old marks.new }
{
    // all of the word, at the start of a byte: the compiler makes one store of it
    if at % 8 + 64 == count {
        write_whole(marks, at, word, 8);
        return;
    }
    write_parts(marks, at, word, count);
}

// Writes row v of n.
fn write_row(rows: &[u64], n: usize, v: usize, marks: &mut [u8])
    requires { (v < n) × (n ≤ vertex_limit) × (n * row_words ≤ length rows.now) × (marks_length n ≤ length marks.old) }
    ensures { RowWritten n (cell rows.now) v n marks.old marks.new }
{
    let row = v * n;
    let mut w = 0;
    while w < n {
        let end = end_of(w, n);
        write_bits(marks, row + w, rows[v * WORDS + w / 64], end - w);
        w = end;
    }
}

// Writes the relation between n vertices that the rows hold.
pub fn write_marks(rows: &[u64], n: usize, marks: &mut [u8])
    requires { (n ≤ vertex_limit) × (n * row_words ≤ length rows.now) × (marks_length n ≤ length marks.old) }
    ensures { RowsWritten n (cell rows.now) marks.old marks.new }
{
    for v in 0..n {
        write_row(rows, n, v, marks);
    }
}

// The same from rows of one word.
pub fn write_small(rows: &[u64], n: usize, marks: &mut [u8])
    requires { (n ≤ word_bits) × (n ≤ length rows.now) × (marks_length n ≤ length marks.old) }
    ensures { RowsWritten n (λ v x. digit (get_or rows.now v 0) x) marks.old marks.new }
{
    for v in 0..n {
        write_bits(marks, v * n, rows[v], n);
    }
}

// Copies the first `count` bytes.
pub fn copy_marks(from: &[u8], to: &mut [u8], count: usize)
    requires { (count ≤ length from.now) × (count ≤ length to.old) }
    ensures { Copied count from.now to.old to.new }
{
    // not `copy_from_slice`: the archives would call `memmove`
    for i in 0..count {
        to[i] = from[i];
    }
}
