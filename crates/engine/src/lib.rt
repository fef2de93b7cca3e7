// The place of an offered edge, over a sound book and the tables of its forests (crate tables). Here the search, the path and the shift come
// together; offer, question and the book reader stand on this.
#![tactic(auto)]

ghost use Rattle.std.specs.Prelude.{◌≡◌, List, ℕ, ◌≤◌, ◌<◌, length, replicate};
ghost use Rattle.reaching.specs.Queues.{IsEmpty};
ghost use Rattle.rule.specs.Calls.{Adds};
ghost use Rattle.engine.specs.Seek.{SeekableIn, Seeks};
ghost use Rattle.engine.specs.Take.{Full, Entered, TakeableIn, TakesIn};

use reaching::Queue;
use rule::{Answer, Book, Edge};
use tables::Tables;

// Where the search for a place ended: after so many edges of a path, in a forest; or nowhere, and then how many edges the circuit has. (Both
// cases carry what was found, and neither is an error.)
#[derive(Clone, Copy, Debug, PartialEq, Eq)]
pub enum Place {
    Found(usize, u8),
    Stuck(u16),
}

// Memory that a search works in, lent from one edge to the next: what waits, and the path from the end of the search back to the new edge.
#[derive(Clone, Copy)]
pub struct Scratch {
    pub queue: Queue,
    pub path: [u16; 379],
    pub ghost path_long: { length path ≡ 379 },
}

impl Scratch {
    // Nothing waits, and the path is zeros.
    pub fn new() -> Scratch
        ensures queue { IsEmpty result.queue }
        ensures path { result.path ≡ replicate 379 0 }
    {
        Scratch {
            queue: Queue::new(),
            path: [0; 379],
        }
    }
}

// (Book and tables, here and in crates search, circuits and step, are two parameters and no struct of both: `take` changes both, and crate book fills tables that are
// not the book's yet. `as`, in this file: the numbers are below 512, and no `From` goes that way.)
// Seeks a place for an edge. Where there is one, the path has the edges to move, last edge first; where there is none, the list holds the
// circuit. (Inlined by a hint: an edge that is passed on in memory is stored byte by byte and loaded as a word, and the book of a light design takes a tenth longer.)
#[inline(always)]
pub fn seek(
    book: &Book,
    edge: Edge,
    tables: &Tables,
    scratch: &mut Scratch,
    list: &mut [u16],
) -> Place
    requires room { 378 ≤ length list.old }
    requires seekable { SeekableIn book.now edge tables.now }
    ensures { Seeks book.now edge list.old scratch.new.path list.new result }
{
    match search::search(book, edge, tables, &mut scratch.queue) {
        Some(end) => {
            let n = search::trail(end.place, &scratch.queue, &mut scratch.path);
            Place::Found(n, end.forest as u8)
        }
        None => {
            let m = search::circuit(&scratch.queue, list);
            Place::Stuck(m as u16)
        }
    }
}

// The same with memory of its own. Where there is no place, the list holds the circuit.
pub fn place_for(book: &Book, edge: Edge, tables: &Tables, list: &mut [u16]) -> Place
    requires room { 378 ≤ length list.old }
    requires seekable { SeekableIn book.now edge tables.now }
    ensures { (path : List ℕ) × Seeks book.now edge list.old path list.new result }
{
    let mut scratch = Scratch::new();
    seek(book, edge, tables, &mut scratch, list)
}

// The edge stands in the book behind the others, in no forest. (Beside `Edges::enter` of crate text, as `Book::edge` beside `Edges::edge`: the lists of a text and a book
// are two types, and here the count is raised and a forest set.)
fn enter(edge: Edge, book: &mut Book)
    requires room { book.old.count < 512 }
    requires full { Full book.old }
    ensures { Entered book.old edge book.new }
{
    let i = usize::from(book.count);
    book.ones[i] = edge.one;
    book.others[i] = edge.other;
    book.colours[i] = edge.colour;
    book.forests[i] = 0;
    book.count += 1;
}

// The edge is offered: the book has it behind the others, moved edges have their new forests, and the tables hold the forests as they are
// then.
pub fn take(
    book: &mut Book,
    edge: Edge,
    tables: &mut Tables,
    scratch: &mut Scratch,
    list: &mut [u16],
) -> Answer
    requires { TakeableIn book.old edge list.old tables.old }
    ensures takes { TakesIn book.old book.new edge list.old list.new tables.new result }
    ensures adds { Adds book.old book.new edge }
{
    let place = seek(book, edge, tables, scratch, list);
    enter(edge, book);
    match place {
        Place::Found(n, f) => {
            moving::replant(book.count, f, &scratch.path[..n], book, tables);
            Answer::Kept(n as u16)
        }
        Place::Stuck(n) => Answer::Implied(n),
    }
}
