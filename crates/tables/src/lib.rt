// Tables of the forests: which bodies a forest joins, and the path between two of them as one word.
//
// A forest has at most 63 edges, each in a slot of its own, 0 to 62, in any order. For forest f (1 to 6) and body v (1 to 64), at
// index (f - 1) * 64 + v - 1: `root`, the label of the tree that v stands in, and `way`, a word; two bodies of one tree differ in bit
// j exactly when the edge in slot j is on the path between them. At index (f - 1) * 64 + j: `edge`, the number of the edge in slot
// j. At index (f - 1) * 64 + l: `who`, the bodies of the tree with label l, body v as bit v - 1. At index f - 1: `size`, how many
// slots are filled. What the tables hold is said in specs/Tables.antt, and of the structs below in specs/Held.antt.
// (Arrays side by side, each with places of its own kind: `Tabled` of specs/Tables.antt, under the theorems on the search, names each.)
#![tactic(auto)]

ghost use Rattle.std.specs.Prelude.{◌≡◌, ◌≤◌, ◌<◌, cond, length, replicate};
ghost use Rattle.rule.specs.Sets.{In, ◌=?◌};
ghost use Rattle.tables.specs.Tables.{spot, label, word};
ghost use Rattle.std.specs.Int.Bits.{bit_xor};

// Which bodies each forest joins.
#[derive(Clone, Copy)]
pub struct Labels {
    pub root: [u8; 384],
    pub who: [u64; 384],
    pub ghost root_long: { length root ≡ 384 },
    pub ghost who_long: { length who ≡ 384 },
}

// All that is known of the forests.
#[derive(Clone, Copy)]
pub struct Tables {
    pub labels: Labels,
    pub way: [u64; 384],
    pub edge: [u16; 384],
    pub size: [u8; 6],
    pub ghost way_long: { length way ≡ 384 },
    pub ghost edge_long: { length edge ≡ 384 },
    pub ghost size_long: { length size ≡ 6 },
}

// The last forest that a red edge may stand in, and the last one for a black edge.
#[derive(Clone, Copy)]
pub struct Limits {
    pub red: usize,
    pub black: usize,
    pub ghost red_few: { red ≤ 6 },
    pub ghost black_few: { black ≤ 6 },
}

// The index of body v in forest f. (The bounds `In 6 f` and `In 64 v` are clauses, here and above, and no types: a newtype would be unwrapped at every index.)
pub fn place(f: usize, v: usize) -> usize
    requires { In 6 f × In 64 v }
    ensures { (result ≡ spot f v) × (result < 384) }
{
    (f - 1) * 64 + v - 1
}

impl Labels {
    // Zeros throughout.
    pub fn new() -> Labels
        ensures root { result.root ≡ replicate 384 0 }
        ensures who { result.who ≡ replicate 384 0 }
    {
        Labels {
            root: [0; 384],
            who: [0; 384],
        }
    }

    // Forest f joins the bodies u and v.
    pub fn joined(&self, f: usize, u: usize, v: usize) -> bool
        requires { In 6 f × (In 64 u × In 64 v) }
        ensures { result ≡ (label self.now.root f u =? label self.now.root f v) }
    {
        self.root[place(f, u)] == self.root[place(f, v)]
    }
}

impl Tables {
    // Zeros throughout.
    pub fn new() -> Tables
        ensures root { result.labels.root ≡ replicate 384 0 }
        ensures who { result.labels.who ≡ replicate 384 0 }
        ensures way { result.way ≡ replicate 384 0 }
        ensures edge { result.edge ≡ replicate 384 0 }
        ensures size { result.size ≡ replicate 6 0 }
    {
        Tables {
            labels: Labels::new(),
            way: [0; 384],
            edge: [0; 384],
            size: [0; 6],
        }
    }

    // The path between u and v in forest f, slot by slot.
    pub fn path(&self, f: usize, u: usize, v: usize) -> u64
        requires { In 6 f × (In 64 u × In 64 v) }
        ensures { result ≡ bit_xor (word self.now.way f u) (word self.now.way f v) }
    {
        self.way[place(f, u)] ^ self.way[place(f, v)]
    }
}

impl Limits {
    // The last forest that an edge of this colour may stand in.
    pub fn of(self, colour: u8) -> usize
        ensures { result ≡ cond (colour =? 1) self.red self.black }
    {
        if colour == 1 { self.red } else { self.black }
    }
}
