// Numbers for the positions of a plan, by Tarjan's search for strongly connected components, a step at a time: along a link inside a block no
// number should rise. Nothing is promised of the numbers but that they are written into the memory lent, and that the search ends:
// `plan_blocks` checks them. So each read and each store is tested against the bounds, and counters stop at the ends of their range.
// Parts of the plan acceptor; no host calls these.
#![tactic(auto)]

ghost use Rattle.std.specs.Prelude.{◌≡◌, get_or};

// The number of a position that is in no block; the order of a position whose component is found.
pub const GONE: u16 = 65535;

// The parts of the work memory: the order in which a position was entered (from 1 on; 0 before), the lowest order it leads back to, its next
// link; the positions whose component isn't found, and the path of the search.
const ORDER: u16 = 0;

const LOW: u16 = 4096;

const NEXT: u16 = 8192;

const WAITING: u16 = 12288;

const PATH: u16 = 16384;

pub const WORK: usize = 20480;

// What a search reads: the links between positions by their index, the priority and the block of each position. What it writes: the number of
// each position, the lowest priority for each number, and the work memory.
#[derive(Drop)]
struct Lists<'a> {
    starts: &'a [u16],
    targets: &'a [u16],
    priorities: &'a [u16],
    blocks: &'a [u16],
    numbers: &'a mut [u16],
    leasts: &'a mut [u16],
    work: &'a mut [u16],
}

// Where the search stands: the next position to begin at, the lengths of the path and of what waits, the last order, the next component.
#[derive(Clone, Copy)]
struct Search {
    root: u16,
    depth: u16,
    waiting: u16,
    order: u16,
    component: u16,
}

// Word i; 0 beyond the end.
pub fn word_at(words: &[u16], i: usize) -> u16
    ensures { result ≡ get_or words.now i 0 }
{
    words.get(i).copied().unwrap_or(0)
}

// Stores word i; nothing beyond the end.
fn store(words: &mut [u16], i: usize, value: u16) {
    if let Some(word) = words.get_mut(i) {
        *word = value;
    }
}

// Word i of a part.
fn cell(part: u16, i: u16) -> usize {
    usize::from(part) + usize::from(i)
}

// Word i becomes `value`, if that is lower.
fn lower(words: &mut [u16], i: usize, value: u16) {
    if let Some(word) = words.get_mut(i) {
        *word = value.min(*word);
    }
}

impl Lists<'_> {
    // Word i of a part of the work memory; 0 beyond the end.
    fn at(&self, part: u16, i: u16) -> u16 {
        word_at(self.work, cell(part, i))
    }

    // Stores word i of a part of the work memory; nothing beyond the end.
    fn set(&mut self, part: u16, i: u16, value: u16) {
        store(self.work, cell(part, i), value);
    }

    // Position v is entered: it comes next in the order, waits, and ends the path.
    fn enter(&mut self, s: Search, v: u16) -> Search {
        let order = s.order.saturating_add(1);
        self.set(ORDER, v, order);
        self.set(LOW, v, order);
        self.set(NEXT, v, word_at(self.starts, usize::from(v)));
        self.set(WAITING, s.waiting, v);
        self.set(PATH, s.depth, v);
        Search {
            depth: s.depth.saturating_add(1),
            waiting: s.waiting.saturating_add(1),
            order,
            ..s
        }
    }

    // The search begins at its root, unless that is in no block or was entered already.
    fn begin(&mut self, s: Search) -> Search {
        let v = s.root;
        let further = Search {
            root: v.saturating_add(1),
            ..s
        };
        if word_at(self.blocks, usize::from(v)) == GONE {
            return further;
        }
        if self.at(ORDER, v) != 0 {
            return further;
        }
        self.enter(further, v)
    }

    // Follows link t of position v, the path's end, if it stays in the block.
    fn follow(&mut self, s: Search, v: u16, t: u16) -> Search {
        self.set(NEXT, v, t.saturating_add(1));
        let w = word_at(self.targets, usize::from(t));
        if word_at(self.blocks, usize::from(w)) != word_at(self.blocks, usize::from(v)) {
            return s;
        }
        let order = self.at(ORDER, w);
        if order == 0 {
            return self.enter(s, w);
        }
        lower(self.work, cell(LOW, v), order);
        s
    }

    // Takes one position of the component of v off those that wait, and v off the path with the last one.
    fn close(&mut self, s: Search, v: u16) -> Search {
        let waiting = s.waiting.saturating_sub(1);
        let w = self.at(WAITING, waiting);
        self.set(ORDER, w, GONE);
        store(self.numbers, usize::from(w), s.component);
        let priority = word_at(self.priorities, usize::from(w));
        lower(self.leasts, usize::from(s.component), priority);
        if w != v {
            return Search { waiting, ..s };
        }
        let component = s.component.saturating_add(1);
        store(self.leasts, usize::from(component), GONE);
        Search {
            depth: s.depth.saturating_sub(1),
            waiting,
            component,
            ..s
        }
    }

    // Leaves position v, the path's end, with no link left: it closes its component, or hands the order it leads back to on.
    fn leave(&mut self, s: Search, v: u16) -> Search {
        let low = self.at(LOW, v);
        if low == self.at(ORDER, v) {
            return self.close(s, v);
        }
        let depth = s.depth.saturating_sub(1);
        let before = self.at(PATH, depth.saturating_sub(1));
        lower(self.work, cell(LOW, before), low);
        Search { depth, ..s }
    }

    // One step: the search begins at the next root, follows the next link of the path's end, or leaves that position.
    fn step(&mut self, s: Search) -> Search {
        if s.depth == 0 {
            return self.begin(s);
        }
        let v = self.at(PATH, s.depth.saturating_sub(1));
        let t = self.at(NEXT, v);
        if t < word_at(self.starts, cell(1, v)) {
            return self.follow(s, v, t);
        }
        self.leave(s, v)
    }
}

// Writes a number for each of the p positions in blocks, and for each number the lowest priority of its positions, in at most `steps` steps.
// `work` is WORK zeros. p positions and l links need no more than 3 p + l steps.
pub fn number_components(
    starts: &[u16],
    targets: &[u16],
    priorities: &[u16],
    blocks: &[u16],
    numbers: &mut [u16],
    leasts: &mut [u16],
    work: &mut [u16],
    p: usize,
    steps: usize,
) {
    store(leasts, 0, GONE);
    let mut lists = Lists {
        starts,
        targets,
        priorities,
        blocks,
        numbers,
        leasts,
        work,
    };
    let mut s = Search {
        root: 0,
        depth: 0,
        waiting: 0,
        order: 0,
        component: 0,
    };
    for _ in 0..steps {
        if s.depth == 0 && p <= usize::from(s.root) {
            return;
        }
        s = lists.step(s);
    }
}
