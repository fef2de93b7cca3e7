// The tables of the forests kept true as an edge is added to a forest and as an edge takes the place of another (crate tables,
// src/lib.rt, says what they hold).
//
// An added edge takes the next slot. The words of the tree that took the other's label change by one constant, the path between the
// edge's ends as the two words give it, with the new slot's bit; so across the new edge two bodies differ in its bit, and in those
// between either body and its end. An edge that takes another's place takes its slot, and the words on one side of the edge
// that goes change by the path between the ends of the one that comes.
#![tactic(auto)]

ghost use Rattle.std.specs.Prelude.{◌≡◌, true, ◌≤◌, ◌<◌};
ghost use Rattle.std.specs.Int.Bits.{bit_xor};
ghost use Rattle.rule.specs.Sets.{In};
ghost use Rattle.words.specs.Bits.{bit};
ghost use Rattle.tables.specs.Tables.{start, filled};
ghost use Rattle.labels.specs.Rows.{Applied};
ghost use Rattle.planting.specs.Calls.{Swappable, turned_by, FirstSlot};
ghost use Rattle.planting.specs.Planted.{CanAdd, Adds, Swaps};

use tables::Tables;

// The words of some bodies change by c in forest f. (Beside `relabel` of crate labels, an instance of `Applied` too: the walk over the bits is one iterator, and
// a function of both would take a closure for one assignment.)
fn change(f: usize, bodies: u64, c: u64, way: &mut [u64; 384])
    requires { In 6 f }
    ensures { Applied (λ w. bit_xor w c) (start f) (bit bodies) way.old way.new }
{
    let base = (f - 1) * 64;
    for t in words::set_bits(bodies) {
        way[base + t] ^= c;
    }
}

// Edge e, between u and v, which stand in two trees of forest f, is added to it.
#[inline(always)]
pub fn add(f: usize, u: usize, v: usize, e: u16, tables: &mut Tables)
    requires { CanAdd f u v tables.old }
    ensures { Adds f u v e tables.old tables.new }
{
    let g = f - 1;
    let j = tables.size[g];
    let t = usize::from(j);
    let c = tables.path(f, u, v) ^ words::one(t);
    let bodies = labels::unite(f, u, v, &mut tables.labels);
    change(f, bodies, c, &mut tables.way);
    tables.edge[g * 64 + t] = e;
    tables.size[g] = j + 1;
}

// The slot of edge y in forest f. (63 and no `None` where there is none: `FirstSlot` of specs/Calls.antt has it so, and `swap`, which is only called for an edge
// that stands there, would owe a proof that `None` never comes.)
fn slot_of(f: usize, y: u16, edge: &[u16; 384]) -> usize
    requires { In 6 f }
    ensures { FirstSlot f y edge.now result }
{
    let base = (f - 1) * 64;
    edge[base..base + 63]
        .iter()
        .position(|e| *e == y)
        .unwrap_or(63)
}

// The word changed by c where it has bit j.
#[tactic(auto, unfolding(crate::specs::Calls::turned_by))]
fn turned(word: u64, j: usize, c: u64) -> u64
    requires { j < 64 }
    ensures { result ≡ turned_by j c word }
{
    if words::has(word, j) { word ^ c } else { word }
}

// The word of each body changes by c in forest f where it has bit j.
fn turn(f: usize, j: usize, c: u64, way: &mut [u64; 384])
    requires { In 6 f × (j < 64) }
    ensures { Applied (turned_by j c) (start f) (λ _. true) way.old way.new }
{
    let base = (f - 1) * 64;
    for word in &mut way[base..base + 64] {
        *word = turned(*word, j, c);
    }
}

// Edge x, between u and v, takes the place of edge y of forest f, which is on the path between u and v.
pub fn swap(f: usize, u: usize, v: usize, x: u16, y: u16, tables: &mut Tables)
    requires { Swappable f u v }
    ensures swaps { Swaps f u v x y tables.old tables.new }
    ensures labels { tables.new.labels ≡ tables.old.labels }
    ensures size { tables.new.size ≡ tables.old.size }
{
    let j = slot_of(f, y, &tables.edge);
    let c = tables.path(f, u, v) ^ words::one(j);
    turn(f, j, c, &mut tables.way);
    tables.edge[(f - 1) * 64 + j] = x;
}
