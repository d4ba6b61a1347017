// The lines: `NAME accepted COUNTS..` and `NAME refused NUMBER at PLACE`.
use table::Refusal;

// Output that cannot be written is lost.
pub fn text(rt: &impl Print, s: &[u8]) {
    let _ = rt.write_all(s);
}

// a space and a number
pub fn number(rt: &impl Print, x: u64) {
    text(rt, b" ");
    let _ = rt.print(x);
}

pub fn end_line(rt: &impl Print) {
    text(rt, b"\n");
}

pub fn refused(rt: &impl Print, f: Refusal) {
    text(rt, b" refused");
    number(rt, f.number as u64);
    text(rt, b" at");
    number(rt, f.place as u64);
    end_line(rt);
}

pub fn accepted(rt: &impl Print) {
    text(rt, b" accepted");
}

// a space and a number for each byte
pub fn bytes(rt: &impl Print, bs: &[u8]) {
    for b in bs {
        number(rt, u64::from(*b));
    }
}

// the same for words
pub fn words(rt: &impl Print, ws: &[u16]) {
    for w in ws {
        number(rt, u64::from(*w));
    }
}
