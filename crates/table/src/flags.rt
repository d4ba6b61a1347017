// A flag for each pair of vertices, at source × n + target: which pairs are edges. Flags are bits in words. Parts of the calls; no host
// calls these.
ghost use Rattle.std.specs.Prelude.{◌≡◌, ◌/◌, ◌<◌, ◌≤◌, length};
ghost use Rattle.theory.specs.Games.Game.{edge_count};
ghost use Rattle.words.specs.Word.{word_bits};
ghost use Rattle.words.specs.Words.{has};
ghost use Rattle.table.specs.Limits.{vertex_limit, pair_words};
ghost use Rattle.table.specs.Table.{game_of};
ghost use Rattle.table.specs.Flags.{Sized, EndsInside, edge_number, Filled, flagged, Raised, EdgeFlags};

// Whether flag i is set.
pub fn is_flagged(flags: &[u64], i: usize) -> bool
    requires { i / word_bits < length flags.now }
    ensures { result ≡ has flags.now i }
{
    (flags[i / 64] >> (i % 64)) & 1 == 1
}

// Sets flag i.
pub fn raise(flags: &mut [u64], i: usize)
    requires { i / word_bits < length flags.old }
    ensures { Raised flags.old flags.new i }
{
    let at = i / 64;
    flags[at] = words::with(flags[at], i % 64, true);
}

// An edge as one number: source × n + target.
fn edge_number(game: &[u16], n: usize, m: usize, j: usize) -> usize
    requires { Sized game.now n m × EndsInside game.now × (j < m) }
    ensures { result ≡ edge_number game.now j }
{
    let s = game[2 + 2 * n + j] as usize;
    let t = game[2 + 2 * n + m + j] as usize;
    s * n + t
}

// Sets the flag of edge j. Returns whether it was set.
fn flag_edge(game: &[u16], n: usize, m: usize, flags: &mut [u64], j: usize) -> bool
    requires sized { Sized game.now n m × EndsInside game.now × (j < m) }
    requires pair_words_in_bounds { pair_words ≤ length flags.old }
    ensures value { result ≡ has flags.old (edge_number game.now j) }
    ensures raised { Raised flags.old flags.new (edge_number game.now j) }
{
    let i = edge_number(game, n, m, j);
    let old = is_flagged(flags, i);
    raise(flags, i);
    old
}

// Sets the flag of each edge, over zeros. Returns how many different edges there are: those whose flag was clear.
pub fn flag_edges(game: &[u16], n: usize, m: usize, flags: &mut [u64]) -> usize
    requires sized { Sized game.now n m × EndsInside game.now }
    requires pair_words_in_bounds { (pair_words ≤ length flags.old) × Filled 0 flags.old }
    ensures value { result ≡ edge_count (game_of game.now) }
    ensures edge_flags { EdgeFlags game.now flags.new }
{
    let mut different = 0;
    for j in 0..m {
        if !flag_edge(game, n, m, flags, j) {
            different += 1;
        }
    }
    different
}

// Whether the pair (v, x) of n vertices is flagged.
pub fn is_edge(flags: &[u64], n: usize, v: usize, x: usize) -> bool
    requires { (v < n) × (x < n) × (n ≤ vertex_limit) × (pair_words ≤ length flags.now) }
    ensures { result ≡ flagged n flags.now v x }
{
    is_flagged(flags, v * n + x)
}
