// The edges of a game of classes, listed class by class: their targets, and where those of each class stop.
ghost use Rattle.std.specs.Prelude.{◌≡◌, not, false, cond, [], ◌∷◌, map, ℕ, ◌+◌, ◌*◌, ◌/◌, ◌<◌, ◌≤◌, length, get_or};
ghost use Rattle.words.specs.Word.{word_bits};
ghost use Rattle.words.specs.Words.{has};
ghost use Rattle.table.specs.Limits.{vertex_limit};
ghost use Rattle.table.specs.Table.{vertex_count, table_edges, game_of};
ghost use Rattle.classes.specs.Numbering.{classes_in};
ghost use Rattle.reduction_rows.specs.Reached.{words_for, RowsFit, RowsReach};
ghost use Rattle.reduction_edges.specs.LittleBrothers.{RowFits};
ghost use Rattle.reduction_edges.specs.Rows.{picked, number_of, keeps, game_by, Prepared, Room, Put, Listed};

use crate::little_brothers::drop_row;
use order_rows::row::WORDS;
use reduction_rows::{reach_rows, words_for};
use table::flags::is_flagged;
use words::members::next_member;

// Puts the class of d behind the first e words, unless it is dropped. Returns how many words there are then.
fn append_target(classes: &[u16], dropped: &[u64], d: usize, ends: &mut [u16], e: usize) -> usize
    requires d_in_bounds { (d < length classes.now) × (d / word_bits < length dropped.now) }
    requires e_in_bounds { has dropped.now d ≡ false → e < length ends.old }
    ensures { Put (cond (not (has dropped.now d)) (number_of classes.now d ∷ []) []) e ends.old ends.new result }
{
    if is_flagged(dropped, d) {
        return e;
    }
    ends[e] = classes[d];
    e + 1
}

// Puts the classes of those of a row that are not dropped behind the first e words. Returns how many words there are then.
fn append_row(
    classes: &[u16],
    n: usize,
    row: &[u64],
    dropped: &[u64],
    ends: &mut [u16],
    e: usize,
) -> usize
    requires n_le_vertex_limit { (n ≤ vertex_limit) × (n ≤ length classes.now) × RowFits n row.now × RowFits n dropped.now }
    requires room { Room e (picked n (keeps row.now dropped.now)) ends.old }
    ensures { Put (map (number_of classes.now) (picked n (keeps row.now dropped.now))) e ends.old ends.new result }
{
    let mut r = e;
    let mut d = next_member(row, 0, n);
    while d < n {
        r = append_target(classes, dropped, d, ends, r);
        d = next_member(row, d + 1, n);
    }
    r
}

// What the targets of the classes are read from: the game, the marks of its order, the classes and their representatives, and for each of these
// the row that holds what it reaches. With `drop`, the targets are those of the reduced game.
#[derive(Clone, Copy)]
struct Source<'a> {
    game: &'a [u16],
    marks: &'a [u8],
    classes: &'a [u16],
    reps: &'a [u16],
    words: &'a [u64],
    width: usize,
    drop: bool,
    ghost rows_fit: { RowsFit game.now width words.now × RowsReach (game_of game.now) width words.now },
}

impl Source<'_> {
    // Puts the targets of class c behind the first e words. Returns how many words there are then.
    fn append_class(self, c: usize, ends: &mut [u16], e: usize) -> usize
        requires prepared { Prepared self.game.now self.marks.now self.classes.now self.reps.now }
        requires c_in_bounds { c < classes_in (game_of self.game.now) }
        requires room { Room e (picked (classes_in (game_of self.game.now)) ((game_by self.drop (game_of self.game.now)).edge c)) ends.old }
        ensures { Put (picked (classes_in (game_of self.entry.game.now)) ((game_by self.entry.drop (game_of self.entry.game.now)).edge c)) e ends.old ends.new result }
    {
        let n = self.game[0] as usize;
        let r = self.reps[c] as usize;
        let at = r * self.width;
        let row = &self.words[at..at + self.width];
        let mut dropped = [0u64; WORDS];
        drop_row(self.game, self.marks, r, row, self.drop, &mut dropped);
        append_row(self.classes, n, row, &dropped, ends, e)
    }

    // Lists the targets of k classes, from `at` on, and where those of each class stop.
    fn list_classes(self, k: usize, stops: &mut [u16], ends: &mut [u16], at: usize) -> usize
        requires prepared { Prepared self.game.now self.marks.now self.classes.now self.reps.now }
        requires k_value { k ≡ classes_in (game_of self.game.now) }
        requires k_in_bounds { (k ≤ length stops.old) × (at + table_edges self.game.now ≤ length ends.old) × (at ≤ 2 + 2 * vertex_limit) }
        ensures { Listed k (game_by self.entry.drop (game_of self.entry.game.now)).edge at k ends.old ends.new stops.new result }
    {
        let mut e = at;
        for c in 0..k {
            e = self.append_class(c, ends, e);
            stops[c] = e as u16;
        }
        e
    }
}

// Lists the targets of the edges of the quotient or, with `drop`, of the reduced game, from `at` on, class by class and ascending, and the place
// where those of each class stop. Returns where all stop. The words are zeros, a row of them for each vertex.
pub fn list_edges(
    game: &[u16],
    marks: &[u8],
    classes: &[u16],
    reps: &[u16],
    k: usize,
    drop: bool,
    words: &mut [u64],
    stops: &mut [u16],
    ends: &mut [u16],
    at: usize,
) -> usize
    requires prepared { Prepared game.now marks.now classes.now reps.now }
    requires k_value { k ≡ classes_in (game_of game.now) }
    requires game_in_bounds { (vertex_count game.now * words_for (vertex_count game.now) ≤ length words.old) × ((i : ℕ) → get_or words.old i 0 ≡ 0) }
    requires k_in_bounds { (k ≤ length stops.old) × (at + table_edges game.now ≤ length ends.old) × (at ≤ 2 + 2 * vertex_limit) }
    ensures { Listed k (game_by drop (game_of game.now)).edge at k ends.old ends.new stops.new result }
{
    let width = words_for(game[0] as usize);
    reach_rows(game, classes, reps, width, words);
    let source = Source {
        game,
        marks,
        classes,
        reps,
        words,
        width,
        drop,
    };
    source.list_classes(k, stops, ends, at)
}
