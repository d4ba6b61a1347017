// Which classes every member of a class reaches, as rows of bits. In a row a class stands as its lowest member, and a row has a word for each
// 64 vertices. Parts of the calls; no host calls these.
#![tactic(auto)]

ghost use Rattle.std.specs.Prelude.{◌≡◌, ℕ, ◌+◌, ◌*◌, ◌<◌, ◌≤◌, length, get_or};
ghost use Rattle.table.specs.Limits.{vertex_limit};
ghost use Rattle.table.specs.Table.{vertex_count, table_edges, game_of};
ghost use Rattle.table.specs.Flags.{Raised};
ghost use Rattle.reduction_rows.specs.Reached.{words_for, Grouped, RowsFit, edge_place, Reaching, Met, MembersMet, RowsReach};

use table::flags::raise;

// How many words a row of n bits has.
pub fn words_for(n: usize) -> usize
    requires { n ≤ vertex_limit }
    ensures { result ≡ words_for n }
{
    n.div_ceil(64)
}

// Leaves in row r what is in row v too.
fn meet_row(words: &mut [u64], width: usize, r: usize, v: usize)
    requires { (r * width + width ≤ length words.old) × (v * width + width ≤ length words.old) }
    ensures { Met width r v words.old words.new }
{
    let to = r * width;
    let from = v * width;
    for k in 0..width {
        words[to + k] &= words[from + k];
    }
}

// A game, its classes and their representatives, and how many words a row has.
#[derive(Clone, Copy)]
struct Groups<'a> {
    game: &'a [u16],
    classes: &'a [u16],
    reps: &'a [u16],
    width: usize,
}

impl Groups<'_> {
    // The representative of v's class.
    fn lowest_of(self, v: usize) -> usize
        requires { (v < length self.classes.now) × (get_or self.classes.now v 0 < length self.reps.now) }
        ensures { result ≡ get_or self.entry.reps.now (get_or self.entry.classes.now v 0) 0 }
    {
        self.reps[self.classes[v] as usize] as usize
    }

    // Puts the class of edge j's target into the row of its source.
    fn reach_edge(self, j: usize, words: &mut [u64])
        requires grouped { Grouped self.game.now self.classes.now self.reps.now × RowsFit self.game.now self.width words.old }
        requires j_bound { j < table_edges self.game.now }
        ensures { Raised words.old words.new (edge_place self.entry.game.now self.entry.width j) }
    {
        let n = self.game[0] as usize;
        let m = self.game[1] as usize;
        let s = self.game[2 + 2 * n + j] as usize;
        let t = self.game[2 + 2 * n + m + j] as usize;
        let d = self.lowest_of(t);
        raise(words, s * self.width * 64 + d);
    }

    // Over zeros: row v gets the classes in which v has a successor.
    fn reach_edges(self, words: &mut [u64])
        requires grouped { Grouped self.game.now self.classes.now self.reps.now × RowsFit self.game.now self.width words.old }
        requires by_index { (i : ℕ) → get_or words.old i 0 ≡ 0 }
        ensures { Reaching (game_of self.entry.game.now) self.entry.width words.new }
    {
        let m = self.game[1] as usize;
        for j in 0..m {
            self.reach_edge(j, words);
        }
    }

    // Leaves in the row of each representative what is in the rows of all members of its class.
    fn meet_members(self, words: &mut [u64])
        requires { Grouped self.game.now self.classes.now self.reps.now × RowsFit self.game.now self.width words.old }
        ensures { MembersMet (game_of self.entry.game.now) self.entry.width (vertex_count self.entry.game.now) words.old words.new }
    {
        let n = self.game[0] as usize;
        for v in 0..n {
            let r = self.lowest_of(v);
            meet_row(words, self.width, r, v);
        }
    }
}

// Over zeros: the row of each representative gets the classes in which every member of its class has a successor.
pub fn reach_rows(game: &[u16], classes: &[u16], reps: &[u16], width: usize, words: &mut [u64])
    requires grouped { Grouped game.now classes.now reps.now × RowsFit game.now width words.old }
    requires by_index { (i : ℕ) → get_or words.old i 0 ≡ 0 }
    ensures { RowsReach (game_of game.now) width words.new }
{
    let groups = Groups {
        game,
        classes,
        reps,
        width,
    };
    groups.reach_edges(words);
    groups.meet_members(words);
}
