// The order and the relation acceptor: document 01's games, games of several passes, short buffers, bad relations.
use crate::{print, tables};

// The verdict, and then both buffers, which start as sevens.
fn orders(rt: &impl Print, name: &[u8], game: &[u16], marks: &mut [u8], spare: &mut [u8]) {
    print::text(rt, name);
    match order::write_order(game, marks, spare) {
        Ok(count) => {
            print::accepted(rt);
            print::number(rt, count.passes as u64);
            print::end_line(rt);
        }
        Err(refusal) => print::refused(rt, refusal),
    }
    print::text(rt, b"marks");
    print::bytes(rt, marks);
    print::end_line(rt);
    print::text(rt, b"spare");
    print::bytes(rt, spare);
    print::end_line(rt);
}

pub fn games(rt: &impl Print) {
    orders(
        rt,
        b"P1_order",
        &[1, 1, 1, 1, 0, 0],
        &mut [7; 2],
        &mut [7; 1],
    );
    orders(rt, b"B_order", &tables::game_b(), &mut [7; 3], &mut [7; 4]);
    orders(rt, b"C_order", &tables::game_c(), &mut [7; 4], &mut [7; 4]);
    orders(rt, b"D_order", &tables::game_d(), &mut [7; 5], &mut [7; 6]);
}

// 0 is Even's and 1 is Odd's; both go to 2 and to 3, and only (2, 2) and (3, 3) are marked there. Not every pair of successors is marked,
// so 0 isn't below 1; some is, so 1 is below 0. With "some" and "every" exchanged in either row, that pair's mark is another.
pub fn mixed_owners(rt: &impl Print) {
    orders(
        rt,
        b"mixed_owners",
        &tables::game_mixed(),
        &mut [7; 2],
        &mut [7; 2],
    );
}

// Pass k, for k from 1 to 3, unmarks the pairs of the vertex k edges away from the loop with those farther away; pass 4 unmarks none. With
// each pair tested under the marks so far the same marks are left in fewer passes: of the first game in two where rows ascend, of the second
// in three whether rows ascend or descend.
pub fn chains(rt: &impl Print) {
    orders(
        rt,
        b"chain",
        &tables::game_chain(),
        &mut [7; 4],
        &mut [7; 4],
    );
    orders(
        rt,
        b"renumbered_chain",
        &tables::game_renumbered_chain(),
        &mut [7; 4],
        &mut [7; 4],
    );
}

pub fn short_buffers(rt: &impl Print) {
    orders(
        rt,
        b"order_refused_game",
        &[1, 0, 0, 0],
        &mut [7; 1],
        &mut [7; 1],
    );
    orders(
        rt,
        b"marks_one_byte_short",
        &tables::game_b(),
        &mut [7; 1],
        &mut [7; 1],
    );
    orders(
        rt,
        b"spare_one_byte_short",
        &tables::game_b(),
        &mut [7; 2],
        &mut [7; 1],
    );
}

fn accepts(rt: &impl Print, name: &[u8], game: &[u16], marks: &[u8]) {
    print::text(rt, name);
    match order_acceptor::accept_relation(game, marks) {
        Ok(_) => {
            print::accepted(rt);
            print::end_line(rt);
        }
        Err(refusal) => print::refused(rt, refusal),
    }
}

pub fn good_relations(rt: &impl Print) {
    let b = tables::game_b();
    accepts(rt, b"B_order_accepted", &b, &[85, 1]);
    accepts(rt, b"empty_relation", &b, &[0; 2]);
    accepts(rt, b"bytes_beyond_ignored", &b, &[0, 0, 9]);
    // 16 marks leave no unused bit
    accepts(rt, b"full_last_byte", &tables::game_mixed(), &[49, 132]);
}

pub fn bad_relations(rt: &impl Print) {
    let b = tables::game_b();
    accepts(rt, b"relation_refused_game", &[1, 0, 0, 0], &[1]);
    accepts(rt, b"relation_short", &b, &[2; 1]);
    accepts(rt, b"unused_bit_before_early_pair", &b, &[2, 128]);
    accepts(rt, b"first_unused_bit", &b, &[85, 3]);
    accepts(rt, b"unequal_priorities", &b, &[10, 0]);
    accepts(rt, b"missing_pair", &b, &[1, 0]);
    // the pair (2, 1) alone: mark 11
    accepts(rt, b"P11", &tables::game_c(), &[0, 8, 0, 0]);
}
