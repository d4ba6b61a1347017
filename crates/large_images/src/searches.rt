// The searches for refusals 102 to 106. No host calls them.
#![tactic(auto, using(large_table::proofs::Searches::search_steps))]

ghost use Rattle.std.specs.Prelude.{◌≡◌};
ghost use Rattle.theory.specs.Logic.Range.{first};
ghost use Rattle.large_table.specs.Words.{TableOf};
ghost use Rattle.large_images.specs.Images.{member_strays, image_strays, start_strays, owner_strays, after_strays, Classes, Long, Images, Starts};

use crate::Merge;

impl Merge<'_> {
    // 102: the first class that names no member.
    pub fn first_empty(self) -> usize
        requires { Classes self.classes.now self.n self.k × Long self.certificate.now self.n self.k self.m }
        ensures { result ≡ first (member_strays self.entry.classes.now self.entry.certificate.now self.entry.n) 0 self.entry.k }
    {
        for d in 0..self.k {
            if self.member_strays(d) {
                return d;
            }
        }
        self.k
    }

    // 103: the first edge without an image.
    pub fn first_image(self) -> usize
        requires { TableOf self.game.now self.n self.m × TableOf self.reduced.now self.k self.q × Classes self.classes.now self.n self.k × Long self.certificate.now self.n self.k self.m }
        ensures { result ≡ first (image_strays self.entry.game.now self.entry.reduced.now self.entry.classes.now self.entry.certificate.now self.entry.n self.entry.m self.entry.k self.entry.q) 0 self.entry.m }
    {
        for j in 0..self.m {
            if self.image_strays(j) {
                return j;
            }
        }
        self.m
    }

    // 104: the first vertex whose start is no edge of its own, or not at the start of a row.
    pub fn first_start(self) -> usize
        requires { TableOf self.game.now self.n self.m × TableOf self.reduced.now self.k self.q × Long self.certificate.now self.n self.k self.m × Images self.certificate.now self.n self.k self.m self.q }
        ensures { result ≡ first (start_strays self.entry.game.now self.entry.reduced.now self.entry.certificate.now self.entry.n self.entry.m self.entry.k) 0 self.entry.n }
    {
        for v in 0..self.n {
            if self.start_strays(v) {
                return v;
            }
        }
        self.n
    }

    // 105: the first vertex of another owner than its class, where the class has several edges.
    pub fn first_owner(self) -> usize
        requires { TableOf self.game.now self.n self.m × TableOf self.reduced.now self.k self.q × Classes self.classes.now self.n self.k × Long self.certificate.now self.n self.k self.m × Images self.certificate.now self.n self.k self.m self.q × Starts self.certificate.now self.n self.m }
        ensures { result ≡ first (owner_strays self.entry.game.now self.entry.reduced.now self.entry.classes.now self.entry.certificate.now self.entry.n self.entry.k self.entry.q) 0 self.entry.n }
    {
        for v in 0..self.n {
            if self.owner_strays(v) {
                return v;
            }
        }
        self.n
    }

    // 106: the first edge after which the row of its image is not answered.
    pub fn first_after(self) -> usize
        requires { TableOf self.game.now self.n self.m × TableOf self.reduced.now self.k self.q × Long self.certificate.now self.n self.k self.m × Images self.certificate.now self.n self.k self.m self.q }
        ensures { result ≡ first (after_strays self.entry.game.now self.entry.reduced.now self.entry.certificate.now self.entry.n self.entry.m self.entry.k self.entry.q) 0 self.entry.m }
    {
        for j in 0..self.m {
            if self.after_strays(j) {
                return j;
            }
        }
        self.m
    }
}
