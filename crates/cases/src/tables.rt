// Tables that the cases share: document 01's games B, C and D, D with an edge doubled, its plan for game C, a game of both players, two
// chains, the largest game, and a plan of loops.
ghost use Rattle.std.specs.Prelude.{◌≡◌, length};

pub fn game_b() -> [u16; 14] {
    [3, 3, 0, 1, 0, 0, 0, 1, 0, 1, 2, 1, 1, 1]
}

pub fn game_c() -> [u16; 26] {
    [
        5, 7, 2, 0, 0, 1, 4, 0, 0, 0, 0, 0, 0, 0, 1, 2, 2, 3, 4, 1, 2, 3, 3, 4, 3, 4,
    ]
}

// Positions at 0, 2 and 4, with links 0 to 1, 1 to 2 and 2 to 2.
pub fn plan_c() -> [u16; 11] {
    [3, 3, 0, 2, 4, 0, 1, 2, 1, 2, 2]
}

pub fn game_d() -> [u16; 30] {
    [
        6, 8, 2, 0, 0, 1, 4, 2, 0, 0, 0, 0, 0, 0, 0, 0, 1, 2, 2, 3, 4, 5, 1, 2, 3, 3, 4, 3, 4, 2,
    ]
}

// D with its first edge once more at the end.
pub fn game_d_doubled() -> [u16; 32] {
    [
        6, 9, 2, 0, 0, 1, 4, 2, 0, 0, 0, 0, 0, 0, 0, 0, 1, 2, 2, 3, 4, 5, 0, 1, 2, 3, 3, 4, 3, 4,
        2, 1,
    ]
}

// 0 is Even's, 1 is Odd's; both go to 2 and to 3, which stay.
pub fn game_mixed() -> [u16; 22] {
    [
        4, 6, 0, 0, 1, 2, 0, 1, 0, 0, 0, 0, 1, 1, 2, 3, 2, 3, 2, 3, 2, 3,
    ]
}

// All Even's: 4 to 3 to 2 to 1 to 0, which has a loop and a priority of its own.
pub fn game_chain() -> [u16; 22] {
    [
        5, 5, 1, 0, 0, 0, 0, 0, 0, 0, 0, 0, 0, 1, 2, 3, 4, 0, 0, 1, 2, 3,
    ]
}

// The same with vertices 2 and 3 exchanged: 4 to 2 to 3 to 1 to 0.
pub fn game_renumbered_chain() -> [u16; 22] {
    [
        5, 5, 1, 0, 0, 0, 0, 0, 0, 0, 0, 0, 0, 1, 2, 3, 4, 0, 0, 3, 1, 2,
    ]
}

// 512 vertices and 4,096 edges: 8 from each vertex v, to v + 0, .., v + 7, modulo 512.
pub fn largest(game: &mut [u16])
    requires { length game.old ≡ 9218 }
{
    game[0] = 512;
    game[1] = 4096;
    for j in 0..4096 {
        game[1026 + j] = (j % 512) as u16;
        game[5122 + j] = ((j % 512 + j / 512) % 512) as u16;
    }
}

pub fn put(game: &mut [u16], at: usize, word: u16) {
    if at < game.len() {
        game[at] = word;
    }
}

// A plan of p positions at vertex 0, each with a link to itself; words beyond it stay.
pub fn loops(words: &mut [u16], p: u16) {
    put(words, 0, p);
    put(words, 1, p);
    for i in 0..p {
        put(words, 2 + p as usize + i as usize, i);
        put(words, 2 + 2 * (p as usize) + i as usize, i);
    }
}
