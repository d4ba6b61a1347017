// The generator of change request 3: a step, and draws. Parts of the call; no host calls these.
ghost use Rattle.std.specs.Prelude.{◌≡◌, ◌*◌, ◌%◌, ◌<◌};
ghost use Rattle.table_seed.specs.Generator.{step, draw_of};

#[derive(Clone, Copy)]
pub struct Generator {
    pub state: u32,
}

// A draw and the generator's next state.
#[derive(Clone, Copy)]
pub struct Draw<T> {
    pub value: T,
    pub next: Generator,
}

// a × b modulo 4,294,967,296.
fn wrapping_mul(a: u32, b: u32) -> u32
    ensures { result ≡ (a * b) % 4294967296 }
{
    a.wrapping_mul(b)
}

impl Generator {
    // A step, and the draw of its new state.
    pub fn draw(self) -> Draw<u32>
        ensures { (result.value ≡ draw_of self.state) × (result.next.state ≡ step self.state) }
    {
        let state = wrapping_mul(self.state, 1664525).wrapping_add(1013904223);
        Draw {
            value: state / 65536,
            next: Generator { state },
        }
    }

    // A draw modulo `limit`, a word.
    pub fn draw_below(self, limit: u32) -> Draw<u16>
        requires { 0 < limit }
        ensures { (result.value ≡ draw_of self.state % limit) × (result.next.state ≡ step self.state) }
    {
        let draw = self.draw();
        Draw {
            value: (draw.value % limit) as u16,
            next: draw.next,
        }
    }
}
