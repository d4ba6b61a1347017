// The crate is its specs/: which reductions of a large game have a certificate that is accepted, and which one. A crate needs one function; this
// one is how many words it has, for a game of `vertices` and `edges` and a reduced game of `classes`.
#![tactic(auto)]

ghost use Rattle.std.specs.Prelude.{◌≡◌, ◌+◌, ◌*◌};

pub fn certificate_length(vertices: u32, edges: u32, classes: u32) -> u64
    ensures { result ≡ vertices + classes + 2 * edges }
{
    vertices as u64 + classes as u64 + 2 * edges as u64
}
