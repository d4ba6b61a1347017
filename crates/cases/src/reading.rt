// The reader and the kind call: document 01's games, bad input of each kind, the limits.
use crate::{print, tables};

fn reads(rt: &impl Print, name: &[u8], game: &[u16]) {
    print::text(rt, name);
    let r = table_reader::read(game);
    match r {
        Ok(c) => {
            print::accepted(rt);
            print::number(rt, c.vertices as u64);
            print::number(rt, c.edges as u64);
            print::number(rt, c.different as u64);
            print::end_line(rt);
        }
        Err(f) => print::refused(rt, f),
    }
}

// The largest table, with one word changed.
fn reads_largest_with(rt: &impl Print, name: &[u8], at: usize, word: u16) {
    let mut game = [0u16; 9218];
    tables::largest(&mut game);
    tables::put(&mut game, at, word);
    reads(rt, name, &game);
}

// One vertex, and 4,096 times the same edge.
fn reads_equal_edges(rt: &impl Print) {
    let mut game = [0u16; 8196];
    tables::put(&mut game, 0, 1);
    tables::put(&mut game, 1, 4096);
    reads(rt, b"equal_edges", &game);
}

pub fn games(rt: &impl Print) {
    let words = [1u16, 1, 1, 1, 0, 0];
    reads(rt, b"P1", &words);
    reads(rt, b"P2", &words[..0]);
    reads(rt, b"P3", &[0, 0]);
    reads(rt, b"P4", &[1, 0, 0, 0]);
    reads(rt, b"P5", &[1, 1, 0, 2, 0, 0]);
    reads(rt, b"P6", &[1, 1, 0, 0, 0, 1]);
    reads(rt, b"P7", &[1, 2, 0, 0, 0, 0, 0, 0]);
    reads(rt, b"B", &tables::game_b());
    reads(rt, b"C", &tables::game_c());
    reads(rt, b"D", &tables::game_d());
}

// Refusals 1 to 4.
pub fn bad_sizes(rt: &impl Print) {
    reads(rt, b"one_word", &[7]);
    reads(rt, b"sizes_alone", &[1, 1]);
    reads(rt, b"one_word_short", &[1, 1, 1, 1, 0]);
    reads(rt, b"one_word_long", &[1, 1, 1, 1, 0, 0, 0]);
    reads(rt, b"both_sizes_too_large", &[513, 4097]);
}

// Refusals 5 to 8.
pub fn bad_words(rt: &impl Print) {
    reads(
        rt,
        b"late_owner_before_early_source",
        &[2, 2, 0, 0, 0, 2, 2, 1, 0, 0],
    );
    reads(
        rt,
        b"late_source_before_early_target",
        &[2, 2, 0, 0, 0, 0, 0, 2, 2, 0],
    );
    reads(rt, b"target_at_n", &[2, 2, 0, 0, 0, 0, 0, 1, 1, 2]);
    reads(
        rt,
        b"two_repeats",
        &[2, 4, 0, 0, 0, 0, 0, 1, 1, 0, 1, 0, 0, 1],
    );
    reads(
        rt,
        b"repeat_and_lacking",
        &[3, 3, 0, 0, 0, 0, 0, 0, 1, 1, 2, 0, 0, 0],
    );
    reads(rt, b"lacking_0_and_2", &[3, 1, 0, 0, 0, 0, 0, 0, 1, 1]);
    reads(rt, b"lacking_last", &[3, 2, 0, 0, 0, 0, 0, 0, 1, 0, 2, 2]);
}

pub fn limits(rt: &impl Print) {
    reads_largest_with(rt, b"n_512_m_4096", 0, 512);
    reads_largest_with(rt, b"n_513", 0, 513);
    reads_largest_with(rt, b"n_0", 0, 0);
    reads_largest_with(rt, b"m_4097", 1, 4097);
    reads_largest_with(rt, b"m_4095", 1, 4095);
    reads_largest_with(rt, b"priority_65535", 2, 65535);
    reads_largest_with(rt, b"last_owner_2", 1025, 2);
    reads_largest_with(rt, b"first_source_512", 1026, 512);
    reads_largest_with(rt, b"last_target_512", 9217, 512);
    reads_largest_with(rt, b"last_edge_repeats", 9217, 0);
    reads_equal_edges(rt);
}

fn kind(rt: &impl Print, number: u32) {
    print::text(rt, b"kind");
    print::number(rt, number as u64);
    print::number(rt, table_reader::kind(number) as u64);
    print::end_line(rt);
}

pub fn kinds(rt: &impl Print) {
    kind(rt, 0);
    kind(rt, 1);
    kind(rt, 8);
    kind(rt, 9);
    kind(rt, 10);
    kind(rt, 11);
    kind(rt, 16);
    kind(rt, 17);
    kind(rt, 20);
    kind(rt, 21);
    kind(rt, 24);
    kind(rt, 25);
    kind(rt, 30);
    kind(rt, 31);
    kind(rt, 41);
    kind(rt, 99);
    kind(rt, 100);
    kind(rt, 4294967295);
}
