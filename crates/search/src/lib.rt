// The search for a place of a new edge, the path to it, and the circuit where there is none.
#![tactic(auto)]

ghost use Rattle.std.specs.Prelude.{◌≡◌, None, ℕ, ◌+◌, ◌<◌, ◌≤◌, length, get_or};
ghost use Rattle.rule.specs.Sets.{Is, numbers};
ghost use Rattle.reaching.specs.Words.{Coming};
ghost use Rattle.search.specs.Given.{GivenFor, SoughtIn};
ghost use Rattle.search.specs.Answers.{TurnedIn, SearchedIn, SearchedFor};
ghost use Rattle.search.specs.Ends.{LedIn, Traced, QueuedIn, CircuitListed};
ghost use Rattle.search.specs.Marks.{MarksWritten, is_marked, Marked, Markings};

use reaching::Queue;
use rule::{Book, Edge};
use tables::{Limits, Tables};

// Where the search has come to its end: at a place of the queue, in a forest in which the edge there is free.
#[derive(Clone, Copy)]
pub struct End {
    pub place: usize,
    pub forest: usize,
}

// The turn of the edge that waits at a place, behind the new one.
fn turn(
    book: &Book,
    limits: Limits,
    place: usize,
    tables: &Tables,
    queue: &mut Queue,
) -> Option<End>
    requires { (g : GivenFor limits book.now tables.now)
        × ((1 ≤ place) × ((place < queue.old.size) × TurnedIn g queue.old place None)) }
    ensures { (g : GivenFor limits book.now tables.now)
        → TurnedIn g queue.old place None
        → TurnedIn g queue.new (place + 1) result }
{
    let i = usize::from(queue.edges[place]) - 1;
    let own = usize::from(book.forests[i]);
    let edge = book.edge(i);
    let last = limits.of(edge.colour);
    let forest = reaching::try_forests(own, last, edge, place, tables, queue)?;
    Some(End { place, forest })
}

// The turns of the waiting edges, after that of the new one, until all have had theirs.
fn turns(book: &Book, limits: Limits, tables: &Tables, queue: &mut Queue) -> Option<End>
    requires { (g : GivenFor limits book.now tables.now) × TurnedIn g queue.old 1 None }
    ensures { (g : GivenFor limits book.now tables.now)
        → TurnedIn g queue.old 1 None
        → SearchedFor g queue.new result }
{
    let mut q: usize = 1;
    // (`while`: the queue grows in it, and the end of a range is fixed before its first turn.)
    while q < queue.size {
        if let Some(end) = turn(book, limits, q, tables, queue) {
            return Some(end);
        }
        q += 1;
    }
    None
}

// The search for a place of the new edge, whose number is the next of the book: the queue holds what waits at its end.
pub fn search(book: &Book, edge: Edge, tables: &Tables, queue: &mut Queue) -> Option<End>
    requires { SoughtIn book.now edge tables.now }
    ensures { (s : SoughtIn book.now edge tables.now) → SearchedIn s queue.new result }
{
    let red = usize::from(book.a);
    let limits = Limits {
        red,
        black: red + usize::from(book.b),
    };
    queue.edges[0] = book.count + 1;
    queue.from[0] = 0;
    queue.seen = [0; 6];
    queue.size = 1;
    match reaching::try_forests(0, limits.of(edge.colour), edge, 0, tables, queue) {
        Some(forest) => Some(End { place: 0, forest }),
        None => turns(book, limits, tables, queue),
    }
}

// The path to a place, its last edge first and without the new edge: written to the first places of an array, and how many they are.
// (A lent array and a count: the library has no heap.)
pub fn trail(place: usize, queue: &Queue, path: &mut [u16; 379]) -> usize
    requires { LedIn place queue.now }
    ensures { (t : LedIn place queue.now) → Traced t.w place path.old path.new result }
{
    let mut q = place;
    let mut n: usize = 0;
    // (`while`: it follows links, each back to some earlier place; no index is counted but that of the path.)
    while q != 0 {
        path[n] = queue.edges[q];
        q = usize::from(queue.from[q]);
        n += 1;
    }
    n
}

// The edges that wait, but for the first, are marked, where none is.
fn mark(queue: &Queue, marks: &mut [u64; 9])
    requires { (1 ≤ queue.now.size) × ((q : ℕ) → 1 ≤ q → q < queue.now.size → get_or queue.now.edges q 0 < 576)
        × ((y : ℕ) → ¬ (Is (is_marked marks.old y))) }
    ensures { Marked queue.now.edges queue.now.size marks.new }
{
    for &e in &queue.edges[1..queue.size] {
        let i = usize::from(e / 64);
        marks[i] |= words::one(usize::from(e % 64));
    }
}

// The numbers of a word's bits, counted from base, are written to the list behind the first places, smallest first.
// (The count beside the `for` is the answer too.)
fn list_word(base: usize, word: u64, start: usize, list: &mut [u16]) -> usize
    requires { (base ≤ 512) × Coming (λ j. base + j) word start (length list.old) }
    ensures { (t : Coming (λ j. base + j) word start (length list.old))
        → MarksWritten list.old start (numbers t.edges t.most) list.new result }
{
    let mut n = start;
    for t in words::set_bits(word) {
        // (`as`: the sum is below 576, and u16 has no `From<usize>`.)
        list[n] = (base + t) as u16;
        n += 1;
    }
    n
}

// The marked numbers are written to the first places of the list, smallest first.
fn list_marked(marks: &[u64; 9], list: &mut [u16]) -> usize
    requires { Markings marks.now (length list.old) }
    ensures { (t : Markings marks.now (length list.old))
        → MarksWritten list.old 0 (numbers (is_marked marks.now) t.m) list.new result }
{
    let mut n: usize = 0;
    for (i, &word) in marks.iter().enumerate() {
        n = list_word(i * 64, word, n, list);
    }
    n
}

// The circuit: the edges that wait, but for the new one, in the first places of the list, smallest first, and how many they are.
// (A lent list and a count: the library has no heap. Its length is a clause and no array type: what is said of the places past the circuit is said of all of the host's list.)
pub fn circuit(queue: &Queue, list: &mut [u16]) -> usize
    requires { (378 ≤ length list.old) × QueuedIn queue.now }
    ensures { (t : QueuedIn queue.now) → CircuitListed t.w t.d.m queue.now.size list.old list.new result }
{
    let mut marks = [0u64; 9];
    mark(queue, &mut marks);
    list_marked(&marks, list)
}
