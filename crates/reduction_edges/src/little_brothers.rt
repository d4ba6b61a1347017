// Which quotient edges the reduced game drops: those of a class c to a little brother, a class d that is no better for c's owner than the
// target e of another quotient edge of c. Document 004's table 4 decides; the prose beside it says the reverse. The targets of c are a row of
// bits, in which a class stands as its lowest member, so that a row of marks is compared with it word by word.
ghost use Rattle.std.specs.Prelude.{◌≡◌, ℕ, ◌+◌, ◌*◌, ◌%◌, ◌<◌, ◌≤◌, eqb, ltb, length, get_or};
ghost use Rattle.theory.specs.Logic.Bools.{◌&◌, ◌or◌};
ghost use Rattle.table.specs.Table.{vertex_count, owner_at};
ghost use Rattle.table.specs.WellFormed.{WellFormed};
ghost use Rattle.words.specs.Word.{word_bits, digit};
ghost use Rattle.words.specs.Words.{has};
ghost use Rattle.marks.specs.Marks.{marks_length};
ghost use Rattle.reduction_edges.specs.LittleBrothers.{below_other, beaten_at, beaten, drops, dropped_by, Marked, RowFits};

use marks::reading::read_wide;
use order_rows::row::end_of;
use table::flags::raise;
use words::members::next_member;

// The targets of a class, as a row of bits, and the marks of n vertices that they are compared by.
#[derive(Clone, Copy)]
struct Targets<'a> {
    marks: &'a [u8],
    n: usize,
    row: &'a [u64],
    ghost marked: { Marked n marks.now },
    ghost row_fits: { RowFits n row.now },
}

impl Targets<'_> {
    // The marks of d's row from w on, as many as a word has bits, without the mark of d itself.
    fn word_of(self, d: usize, w: usize) -> u64
        requires { (d < self.n) × (w < self.n) × (w % word_bits ≡ 0) }
        ensures { (k : ℕ) → k < word_bits → digit result k ≡ ltb (w + k) self.entry.n & below_other self.entry.n self.entry.marks.now d (w + k) }
    {
        let end = end_of(w, self.n);
        let word = read_wide(self.marks, d * self.n + w, end - w);
        let own = words::with(0, d % 64, d / 64 == w / 64);
        word ^ (word & own)
    }

    // Those of the row's word from w on that d is below, without d itself. Most words of a row are empty where a class has few targets.
    fn beaten_word(self, d: usize, w: usize) -> u64
        requires { (d < self.n) × (w < self.n) × (w % word_bits ≡ 0) }
        ensures { (k : ℕ) → k < word_bits → digit result k ≡ beaten_at self.entry.n self.entry.marks.now self.entry.row.now d w k }
    {
        let here = self.row[w / 64];
        if here == 0 {
            return 0;
        }
        self.word_of(d, w) & here
    }

    // Whether d is below another one in the row.
    fn is_beaten(self, d: usize) -> bool
        requires { d < self.n }
        ensures { result ≡ beaten self.entry.n self.entry.marks.now self.entry.row.now d }
    {
        for w in (0..self.n).step_by(64) {
            if words::is_some(self.beaten_word(d, w)) {
                return true;
            }
        }
        false
    }

    // Puts all others of the row that d is below into `dropped`.
    fn unite_others(self, d: usize, dropped: &mut [u64])
        requires { RowFits self.n dropped.old × (d < self.n) }
        ensures { (x : ℕ) → x < self.entry.n → has dropped.new x ≡ (has dropped.old x or (has self.entry.row.now x & below_other self.entry.n self.entry.marks.now d x)) }
    {
        for w in (0..self.n).step_by(64) {
            dropped[w / 64] |= self.beaten_word(d, w);
        }
    }

    // Puts what is dropped because of d, one of the row, into `dropped`: for Even d itself, where it is below another, and for Odd the others
    // that d is below.
    fn drop_by(self, even: bool, d: usize, dropped: &mut [u64])
        requires { RowFits self.n dropped.old × (d < self.n) }
        ensures { (x : ℕ) → x < self.entry.n → has dropped.new x ≡ (has dropped.old x or drops even self.entry.n self.entry.marks.now self.entry.row.now d x) }
    {
        if !even {
            self.unite_others(d, dropped);
            return;
        }
        if !self.is_beaten(d) {
            return;
        }
        raise(dropped, d);
    }

    // Over zeros: puts what is dropped because of any of the row into `dropped`.
    fn drop_all(self, even: bool, dropped: &mut [u64])
        requires row_fits { RowFits self.n dropped.old }
        requires by_index { (i : ℕ) → get_or dropped.old i 0 ≡ 0 }
        ensures { (x : ℕ) → x < self.entry.n → has dropped.new x ≡ dropped_by even self.entry.n self.entry.marks.now self.entry.row.now x }
    {
        let mut d = next_member(self.row, 0, self.n);
        while d < self.n {
            self.drop_by(even, d, dropped);
            d = next_member(self.row, d + 1, self.n);
        }
    }
}

// Over zeros: with `drop`, puts the targets that the class of r drops into `dropped`, where the row has all its targets.
pub fn drop_row(game: &[u16], marks: &[u8], r: usize, row: &[u64], drop: bool, dropped: &mut [u64])
    requires well_formed { WellFormed game.now × (r < vertex_count game.now) × Marked (vertex_count game.now) marks.now }
    requires row_fits { RowFits (vertex_count game.now) row.now × RowFits (vertex_count game.now) dropped.old }
    requires by_index { (i : ℕ) → get_or dropped.old i 0 ≡ 0 }
    ensures { (x : ℕ) → x < vertex_count game.now
        → has dropped.new x ≡ drop & dropped_by (eqb (owner_at game.now r) 0) (vertex_count game.now) marks.now row.now x }
{
    if !drop {
        return;
    }
    let n = game[0] as usize;
    let targets = Targets { marks, n, row };
    targets.drop_all(game[2 + n + r] == 0, dropped);
}
