// The game table: the verdicts and the refusal that they share, the limits, the reader's searches, flags of edges, and words put into a buffer.
#![tactic(auto)]

pub mod flags;
pub mod limits;
pub mod searches;
pub mod slices;

ghost use Rattle.std.specs.Prelude.{◌≡◌, Err};
ghost use Rattle.table.specs.Filling.{refusal_of};

// Document 01's number, and its place: a word, a byte, a vertex, a link, a position or a length.
#[derive(Clone, Copy)]
pub struct Refusal {
    pub number: u32,
    pub place: usize,
}

// Vertices and edges of the table, and how many of its edges are different.
#[derive(Clone, Copy)]
pub struct Sizes {
    pub vertices: usize,
    pub edges: usize,
    pub different: usize,
}

// An acceptor's verdict has no counts.
#[derive(Clone, Copy)]
pub struct NoCounts {}

// Vertices and edges of a table that a call writes or reads, where these are all its counts.
#[derive(Clone, Copy)]
pub struct FilledSizes {
    pub vertices: usize,
    pub edges: usize,
}

// A verdict that is a refusal, whatever counts the call has. A part of the calls; no host calls it.
pub fn refused<C>(number: u32, place: usize) -> Result<C, Refusal>
    ensures { result ≡ Err (record { number = number; place = place }) }
{
    Err(Refusal { number, place })
}

// The refusal of the reader's verdict, for a call to hand on; number 0 where there is none. A part of the calls; no host calls it.
pub fn refusal_of(reading: Result<FilledSizes, Refusal>) -> Refusal
    ensures { result ≡ refusal_of reading }
{
    match reading {
        Err(refusal) => refusal,
        Ok(_) => Refusal {
            number: 0,
            place: 0,
        },
    }
}
