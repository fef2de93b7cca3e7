// Labels of trees: which bodies a forest joins, kept true as its edges are added.
//
// The bodies of one tree have one label, and the word at a label has the bodies with that label (crate tables, src/lib.rt, says where
// each stands). Of two trees that an edge joins, the smaller takes the label of the other.
#![tactic(auto)]

ghost use Rattle.std.specs.Prelude.{◌≡◌, ◌+◌, ◌<◌};
ghost use Rattle.rule.specs.Sets.{In};
ghost use Rattle.tables.specs.Tables.{start};
ghost use Rattle.words.specs.Bits.{bit};
ghost use Rattle.labels.specs.Rows.{Applied};
ghost use Rattle.labels.specs.Labels.{Begun, ReadyToUnite, United};

use tables::{Labels, place};

// Every body is a tree by itself. (`as`: v is below 64, and u8 has no `From<usize>`.)
pub fn begin(labels: &mut Labels)
    ensures { Begun labels.new.root labels.new.who }
{
    for i in 0..384 {
        let v = i % 64;
        labels.root[i] = v as u8;
        labels.who[i] = words::one(v);
    }
}

// The index of label l in forest f.
fn seat(f: usize, l: u8) -> usize
    requires { In 6 f × (l < 64) }
    ensures { (result ≡ start f + l) × (result < 384) }
{
    (f - 1) * 64 + usize::from(l)
}

// The bodies of a word get one label in forest f.
fn relabel(f: usize, bodies: u64, new: u8, root: &mut [u8; 384])
    requires { In 6 f }
    ensures { Applied (λ _. new) (start f) (bit bodies) root.old root.new }
{
    let base = (f - 1) * 64;
    for t in words::set_bits(bodies) {
        root[base + t] = new;
    }
}

// The trees of u and v in forest f become one. Answers the bodies that took another label.
pub fn unite(f: usize, u: usize, v: usize, labels: &mut Labels) -> u64
    requires { ReadyToUnite f u v labels.old.root }
    ensures { United f u v labels.old.root labels.old.who labels.new.root labels.new.who result }
{
    let x = place(f, u);
    let y = place(f, v);
    let p = labels.root[x];
    let q = labels.root[y];
    let i = seat(f, p);
    let j = seat(f, q);
    let ours = labels.who[i];
    let theirs = labels.who[j];
    if ours.count_ones() <= theirs.count_ones() {
        relabel(f, ours, q, &mut labels.root);
        labels.who[j] = ours | theirs;
        ours
    } else {
        relabel(f, theirs, p, &mut labels.root);
        labels.who[i] = ours | theirs;
        theirs
    }
}
