// The plan acceptor: document 01's plans, and bad plans of each kind.
use crate::{print, tables};

fn accepts(rt: &impl Print, name: &[u8], game: &[u16], player: u32, words: &[u16]) {
    print::text(rt, name);
    match plan::accept_plan(game, player, words) {
        Ok(_) => {
            print::accepted(rt);
            print::end_line(rt);
        }
        Err(refusal) => print::refused(rt, refusal),
    }
}

// The plan of the first words, for a game of one vertex of Even's, of priority 0 and with a loop.
fn accepts_sized(rt: &impl Print, name: &[u8], words: &[u16], p: u16, l: u16) {
    let size = 2 + p as usize + 2 * (l as usize);
    if size <= words.len() {
        accepts(rt, name, &[1, 1, 0, 0, 0, 0], 0, &words[..size]);
    }
}

// All links are loops at position 0.
fn accepts_zeros(rt: &impl Print, name: &[u8], p: u16, l: u16) {
    let mut words = [0u16; 36866];
    tables::put(&mut words, 0, p);
    tables::put(&mut words, 1, l);
    accepts_sized(rt, name, &words, p, l);
}

// Every position has a link to itself.
fn accepts_loops(rt: &impl Print, name: &[u8], p: u16) {
    let mut words = [0u16; 12293];
    tables::loops(&mut words, p);
    accepts_sized(rt, name, &words, p, p);
}

pub fn games(rt: &impl Print) {
    let c = tables::game_c();
    let words = tables::plan_c();
    accepts(rt, b"P12", &c, 0, &words);
    accepts(rt, b"P13", &c, 1, &words);
    accepts(rt, b"P14", &[1, 1, 1, 1, 0, 0], 0, &[1, 1, 0, 0, 0]);
}

// Refusal 11, and the reader's before it.
pub fn bad_players(rt: &impl Print) {
    let c = tables::game_c();
    let words = tables::plan_c();
    accepts(rt, b"plan_refused_game", &[1, 0, 0, 0], 2, &words);
    accepts(rt, b"player_2", &c, 2, &words[..0]);
}

// Refusal 12.
pub fn bad_sizes(rt: &impl Print) {
    let c = tables::game_c();
    let words = tables::plan_c();
    accepts(rt, b"plan_of_no_word", &c, 0, &words[..0]);
    accepts(rt, b"plan_of_one_word", &c, 0, &[3]);
    accepts(
        rt,
        b"plan_one_word_short",
        &c,
        0,
        &[3, 3, 0, 2, 4, 0, 1, 2, 1, 2],
    );
    accepts(rt, b"plan_one_word_long", &c, 0, &[1, 0, 4, 4]);
    accepts(rt, b"p_0", &c, 0, &[0, 0]);
}

// Each limit of refusal 12 and one beyond it, at the right length: but for the limit, p_4097 and l_16385 win as p_4096 and l_16384 do. At both
// limits position 1 lacks a link.
pub fn limits(rt: &impl Print) {
    accepts_loops(rt, b"p_4096", 4096);
    accepts_loops(rt, b"p_4097", 4097);
    accepts_zeros(rt, b"l_16384", 1, 16384);
    accepts_zeros(rt, b"l_16385", 1, 16385);
    accepts_zeros(rt, b"p_4096_l_16384", 4096, 16384);
}

// Refusals 13 and 14.
pub fn bad_words(rt: &impl Print) {
    let c = tables::game_c();
    accepts(rt, b"vertex_at_n", &c, 0, &[2, 1, 4, 5, 2, 0]);
    accepts(rt, b"link_source_at_p", &c, 0, &[1, 1, 4, 1, 0]);
    accepts(rt, b"link_target_at_p", &c, 0, &[1, 1, 4, 0, 1]);
    accepts(
        rt,
        b"link_along_no_edge",
        &c,
        0,
        &[2, 3, 4, 3, 0, 1, 1, 0, 1, 0],
    );
}

// Refusals 15 and 16.
pub fn bad_positions(rt: &impl Print) {
    let c = tables::game_c();
    accepts(rt, b"own_position_without_link", &c, 0, &[2, 1, 4, 3, 0, 0]);
    accepts(
        rt,
        b"opponent_with_one_answer",
        &c,
        1,
        &[3, 3, 2, 4, 4, 0, 1, 2, 1, 1, 2],
    );
    accepts(
        rt,
        b"unreached_walk_of_wrong_parity",
        &c,
        0,
        &[2, 2, 4, 3, 0, 1, 0, 1],
    );
    accepts(rt, b"repeated_links", &c, 0, &[1, 2, 4, 0, 0, 0, 0]);
    accepts(
        rt,
        b"lowest_priority_not_first",
        &[2, 2, 2, 1, 0, 0, 0, 1, 1, 0],
        0,
        &[2, 2, 0, 1, 0, 1, 1, 0],
    );
}
