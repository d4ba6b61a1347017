// What is tested of one vertex, one class or one edge. No host calls these.
ghost use Rattle.std.specs.Prelude.{◌≡◌, ◌<◌};
ghost use Rattle.large_table.specs.Words.{TableOf};
ghost use Rattle.large_images.specs.Images.{start_at, is_inner, goes_on, member_strays, image_strays, start_strays, owner_strays, after_strays, Classes, Long, Images};

use crate::Merge;

impl Merge<'_> {
    // Whether edge e isn't the first of its row.
    fn is_inner(self, e: usize) -> bool
        requires { TableOf self.reduced.now self.k self.q × (e < self.q) }
        ensures { result ≡ is_inner self.entry.reduced.now self.entry.k e }
    {
        if e == 0 {
            return false;
        }
        self.reduced[1 + 2 * self.k + e] == self.reduced[2 + 2 * self.k + e]
    }

    // Whether edge e isn't the last of its row.
    fn goes_on(self, e: usize) -> bool
        requires { TableOf self.reduced.now self.k self.q × (e < self.q) }
        ensures { result ≡ goes_on self.entry.reduced.now self.entry.k self.entry.q e }
    {
        if self.q <= e + 1 {
            return false;
        }
        self.reduced[3 + 2 * self.k + e] == self.reduced[2 + 2 * self.k + e]
    }

    // Whether the member that class d names isn't one.
    pub(crate) fn member_strays(self, d: usize) -> bool
        requires { Classes self.classes.now self.n self.k × Long self.certificate.now self.n self.k self.m × (d < self.k) }
        ensures { result ≡ member_strays self.entry.classes.now self.entry.certificate.now self.entry.n d }
    {
        let v = self.certificate[self.n + d] as usize;
        if self.n <= v {
            return true;
        }
        self.classes[v] as usize != d
    }

    // Whether the image of edge j isn't an edge between the classes of its ends.
    pub(crate) fn image_strays(self, j: usize) -> bool
        requires { TableOf self.game.now self.n self.m × TableOf self.reduced.now self.k self.q × Classes self.classes.now self.n self.k × Long self.certificate.now self.n self.k self.m × (j < self.m) }
        ensures { result ≡ image_strays self.entry.game.now self.entry.reduced.now self.entry.classes.now self.entry.certificate.now self.entry.n self.entry.m self.entry.k self.entry.q j }
    {
        let e = self.certificate[self.n + self.k + j] as usize;
        if self.q <= e {
            return true;
        }
        let v = self.game[2 + 2 * self.n + j] as usize;
        if self.reduced[2 + 2 * self.k + e] != self.classes[v] {
            return true;
        }
        let w = self.game[2 + 2 * self.n + self.m + j] as usize;
        self.reduced[2 + 2 * self.k + self.q + e] != self.classes[w]
    }

    // Whether the start of v isn't an edge of v whose image starts a row.
    pub(crate) fn start_strays(self, v: usize) -> bool
        requires { TableOf self.game.now self.n self.m × TableOf self.reduced.now self.k self.q × Long self.certificate.now self.n self.k self.m × Images self.certificate.now self.n self.k self.m self.q × (v < self.n) }
        ensures { result ≡ start_strays self.entry.game.now self.entry.reduced.now self.entry.certificate.now self.entry.n self.entry.m self.entry.k v }
    {
        let j = self.certificate[v] as usize;
        if self.m <= j {
            return true;
        }
        if self.game[2 + 2 * self.n + j] as usize != v {
            return true;
        }
        self.is_inner(self.certificate[self.n + self.k + j] as usize)
    }

    // Whether v has another owner than its class, whose row is longer than one edge.
    pub(crate) fn owner_strays(self, v: usize) -> bool
        requires { TableOf self.game.now self.n self.m × TableOf self.reduced.now self.k self.q × Classes self.classes.now self.n self.k × Long self.certificate.now self.n self.k self.m × Images self.certificate.now self.n self.k self.m self.q × (start_at self.certificate.now v < self.m) × (v < self.n) }
        ensures { result ≡ owner_strays self.entry.game.now self.entry.reduced.now self.entry.classes.now self.entry.certificate.now self.entry.n self.entry.k self.entry.q v }
    {
        let d = self.classes[v] as usize;
        if self.game[2 + self.n + v] == self.reduced[2 + self.k + d] {
            return false;
        }
        let j = self.certificate[v] as usize;
        self.goes_on(self.certificate[self.n + self.k + j] as usize)
    }

    // Whether the row of j's image goes on, and the edge after j isn't one of its source whose image is the next in the row.
    pub(crate) fn after_strays(self, j: usize) -> bool
        requires { TableOf self.game.now self.n self.m × TableOf self.reduced.now self.k self.q × Long self.certificate.now self.n self.k self.m × Images self.certificate.now self.n self.k self.m self.q × (j < self.m) }
        ensures { result ≡ after_strays self.entry.game.now self.entry.reduced.now self.entry.certificate.now self.entry.n self.entry.m self.entry.k self.entry.q j }
    {
        let e = self.certificate[self.n + self.k + j] as usize;
        if !self.goes_on(e) {
            return false;
        }
        let i = self.certificate[self.n + self.k + self.m + j] as usize;
        if self.m <= i {
            return true;
        }
        if self.game[2 + 2 * self.n + i] != self.game[2 + 2 * self.n + j] {
            return true;
        }
        self.certificate[self.n + self.k + i] as usize != e + 1
    }
}
