// Classes, quotient game and reduced game: document 01's games, and short buffers.
use crate::{print, tables};
use reduction::TableCounts;
use table::Refusal;

// The verdict, and the class words and the output, which start as sevens.
fn tabulates(
    rt: &impl Print,
    name: &[u8],
    verdict: Result<TableCounts, Refusal>,
    classes: &[u16],
    output: &[u16],
) {
    print::text(rt, name);
    match verdict {
        Ok(counts) => {
            print::accepted(rt);
            print::number(rt, counts.classes as u64);
            print::number(rt, counts.vertices as u64);
            print::number(rt, counts.edges as u64);
            print::end_line(rt);
        }
        Err(refusal) => print::refused(rt, refusal),
    }
    print::text(rt, b"classes");
    print::words(rt, classes);
    print::end_line(rt);
    print::text(rt, b"output");
    print::words(rt, output);
    print::end_line(rt);
}

fn reduces(rt: &impl Print, name: &[u8], game: &[u16], classes: &mut [u16], output: &mut [u16]) {
    let verdict = reduction::write_reduced(game, &mut [7; 5], &mut [7; 5], classes, output);
    tabulates(rt, name, verdict, classes, output);
}

fn divides(rt: &impl Print, name: &[u8], game: &[u16], classes: &mut [u16], output: &mut [u16]) {
    let verdict = reduction::write_quotient(game, &mut [7; 5], &mut [7; 5], classes, output);
    tabulates(rt, name, verdict, classes, output);
}

pub fn games(rt: &impl Print) {
    reduces(
        rt,
        b"B_reduced",
        &tables::game_b(),
        &mut [7; 3],
        &mut [7; 14],
    );
    reduces(
        rt,
        b"C_reduced",
        &tables::game_c(),
        &mut [7; 5],
        &mut [7; 26],
    );
    reduces(
        rt,
        b"D_reduced",
        &tables::game_d(),
        &mut [7; 7],
        &mut [7; 31],
    );
    reduces(
        rt,
        b"D_doubled_reduced",
        &tables::game_d_doubled(),
        &mut [7; 7],
        &mut [7; 32],
    );
}

pub fn quotients(rt: &impl Print) {
    divides(
        rt,
        b"B_quotient",
        &tables::game_b(),
        &mut [7; 3],
        &mut [7; 14],
    );
    divides(
        rt,
        b"C_quotient",
        &tables::game_c(),
        &mut [7; 5],
        &mut [7; 26],
    );
    divides(
        rt,
        b"D_quotient",
        &tables::game_d(),
        &mut [7; 7],
        &mut [7; 31],
    );
}

pub fn short_buffers(rt: &impl Print) {
    reduces(
        rt,
        b"classes_one_word_short",
        &tables::game_d(),
        &mut [7; 5],
        &mut [7; 29],
    );
    reduces(
        rt,
        b"output_one_word_short",
        &tables::game_d(),
        &mut [7; 6],
        &mut [7; 29],
    );
}
