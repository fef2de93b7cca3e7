// Classes of bodies that the greatest closed set of kept edges joins in each of the first forests; with limit k for every edge, and over
// all k forests, they are the rigid groups of document 01.
//
// The greatest closed set is what is left of the kept edges when those whose ends some forest 1 to their limit no longer joins are
// deleted again and again. The limits of red and of black edges are parameters. What is left is held as the forests of its edges, 0
// for an edge that is deleted, so that a pass needs nothing but the labels of the forests that are left. The class of a body is
// then a word: the bodies of its trees, forest by forest, and its lowest bit is the smallest of them.
#![tactic(auto)]

ghost use Rattle.std.specs.Prelude.{◌≡◌, ℕ, suc, ◌-◌, ◌≤◌, ◌<◌, length};
ghost use Rattle.rule.specs.Sets.{In, at};
ghost use Rattle.rule.specs.Books.{Sound};
ghost use Rattle.rule.specs.Reasons.{groups_room};
ghost use Rattle.rule.specs.Calls.{Grouped};
ghost use Rattle.words.specs.Bits.{bit};
ghost use Rattle.groups.specs.Lent.{GivenIn};
ghost use Rattle.groups.specs.Passes.{SeatedIn, PlantedIn, same_labels, stays_in, Thinned, ShrunkIn};
ghost use Rattle.groups.specs.Classes.{together_in, ClassesListed, ClassesIn};

use rule::{Book, Reason};
use tables::{Labels, Limits};

// The labels of the forests of the edges that are left.
fn plant(book: &Book, left: &[u8; 512], labels: &mut Labels)
    requires { GivenIn book.now left.now }
    ensures { PlantedIn book.now left.now labels.new }
{
    labels::begin(labels);
    for e in 0..usize::from(book.count) {
        let f = usize::from(left[e]);
        let u = usize::from(book.ones[e]);
        let v = usize::from(book.others[e]);
        if f != 0 {
            labels::unite(f, u, v, labels);
        }
    }
}

// u and v have one label in each of the forests 1 to j.
fn same_labels(labels: &Labels, j: usize, u: usize, v: usize) -> bool
    requires { (j ≤ 6) × (In 64 u × In 64 v) }
    ensures { result ≡ same_labels labels.now.root j u v }
{
    (0..j).all(|i| labels.joined(i + 1, u, v))
}

// The edge at index e stays in this pass.
fn remains(book: &Book, labels: &Labels, limits: Limits, e: usize) -> bool
    requires index { e < 512 }
    requires ends { In 64 (at book.now.ones (suc e)) × In 64 (at book.now.others (suc e)) }
    ensures { result ≡ stays_in book.now labels.now limits (suc e) }
{
    let edge = book.edge(e);
    let j = limits.of(edge.colour);
    let u = usize::from(edge.one);
    let v = usize::from(edge.other);
    same_labels(labels, j, u, v)
}

// One pass of deletion: all edges are judged by the same labels. Answers how many are deleted.
fn thin(book: &Book, labels: &Labels, limits: Limits, left: &mut [u8; 512]) -> usize
    requires few { book.now.count ≤ 512 }
    requires ends { (e : ℕ) → In book.now.count e → In 64 (at book.now.ones e) × In 64 (at book.now.others e) }
    ensures { Thinned (stays_in book.now labels.now limits) book.now.count left.old left.new result }
{
    let mut gone: usize = 0;
    for e in 0..usize::from(book.count) {
        if left[e] != 0 && !remains(book, labels, limits, e) {
            left[e] = 0;
            gone += 1;
        }
    }
    gone
}

// The greatest closed set: passes of deletion until nothing changes.
// (`loop`: each turn is a pass, and the last is the one that deletes nothing; no index is counted. `left` and `labels` are two, as `book` and `limits` are: each pass changes one and is lent the other.)
pub fn shrink(book: &Book, limits: Limits, left: &mut [u8; 512], labels: &mut Labels)
    requires { GivenIn book.now left.old }
    ensures { ShrunkIn book.now limits left.old left.new labels.new }
{
    loop {
        plant(book, left, labels);
        let gone = thin(book, labels, limits, left);
        if gone == 0 {
            return;
        }
    }
}

// The class of body v: the bodies that have its label in each of the forests 1 to j.
fn class_of(labels: &Labels, j: usize, v: usize) -> u64
    requires { (j ≤ 6) × (In 64 v × SeatedIn labels.now) }
    ensures { (u : ℕ) → In 64 u → bit result (u - 1) ≡ together_in labels.now j v u }
{
    let mut word: u64 = u64::MAX;
    for i in 0..j {
        let x = i * 64 + v - 1;
        let y = i * 64 + usize::from(labels.root[x]);
        word &= labels.who[y];
    }
    word
}

// For each of the bodies 1 to n the smallest body that is with it in each of the forests 1 to j.
// (`as`: at most 64, and u8 has no `From<usize>`. A list and n: places past n stay, as `ClassesListed` of specs/Classes.antt says.)
pub fn leaders(labels: &Labels, j: usize, n: usize, list: &mut [u8])
    requires j_bound { (j ≤ 6) × ((n ≤ 64) × (n ≤ length list.old)) }
    requires seated { SeatedIn labels.now }
    ensures { ClassesListed (together_in labels.now j) n list.old list.new }
{
    for v in 0..n {
        let word = class_of(labels, j, v + 1);
        list[v] = (words::lowest(word) + 1) as u8;
    }
}

// For each body of the book the smallest body of its class.
pub fn classes(book: &Book, limits: Limits, j: usize, list: &mut [u8])
    requires given { GivenIn book.now book.now.forests }
    requires few { (j ≤ 6) × (book.now.n ≤ 64) }
    requires room { book.now.n ≤ length list.old }
    ensures { ClassesIn book.now limits j list.old list.new }
{
    let mut left = book.forests;
    let mut labels = Labels::new();
    shrink(book, limits, &mut left, &mut labels);
    leaders(&labels, j, usize::from(book.n), list);
}

// The group list of a sound book.
pub fn list_groups(book: &Book, list: &mut [u8])
    requires { Sound book.now × (groups_room ≤ length list.old) }
    ensures { Grouped book.now list.old list.new (Ok tt) }
{
    let a = usize::from(book.a);
    let k = a + usize::from(book.b);
    // A group holds in every forest, so the limit of a red edge is k too.
    let red = k;
    let limits = Limits { red, black: k };
    classes(book, limits, k, list);
}

// For each body in order the smallest body of its group. Checks 8, then 7; the tables of check 8 are gone before those of the passes stand.
pub fn groups(book: Book, list: &mut [u8]) -> Result<(), Reason>
    ensures { Grouped book list.old list.new result }
{
    book::sound_alone(&book)?;
    if list.len() < 64 {
        return Err(Reason::Short);
    }
    list_groups(&book, list);
    Ok(())
}
