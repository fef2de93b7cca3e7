// Reading book text: each line is read once, and its edge entered in lists (crate text); then a book is opened and offered the edges in
// order. The tables of the forests are kept from one edge to the next (crate engine), so that no scan of the book is made.
#![tactic(auto)]

ghost use Rattle.std.specs.Prelude.{◌≡◌};
ghost use Rattle.rule.specs.Calls.{new_book};
ghost use Rattle.labels.specs.Labels.{Begun};
ghost use Rattle.book.specs.Scan.{Cleared};
ghost use Rattle.text.specs.Sheets.{SheetRange};
ghost use Rattle.text.specs.EdgeLists.{lists_of, edges_in, sheet_in};
ghost use Rattle.reports.specs.Reads.{Offers, Receives};

use engine::Scratch;
use reports::{Read, State};
use rule::Book;
use tables::Tables;
use text::{Edges, Head};

// The tables of forests that have no edge yet.
fn no_forests() -> Tables
    ensures begun { Begun result.labels.root result.labels.who }
    ensures cleared { Cleared result.size }
{
    let mut tables = Tables::new();
    labels::begin(&mut tables.labels);
    tables
}

// The book of a sheet whose edges stand in lists: a book is opened and offered the edges in order.
fn grow(head: Head, edges: &Edges) -> Book
    requires { SheetRange (sheet_in head.a head.b head.n head.edges (lists_of edges.now)) }
    ensures { Offers (new_book head.a head.b head.n) (edges_in (lists_of edges.now) head.edges) result }
{
    let mut book = book::new_book(head.a, head.b, head.n);
    let mut tables = no_forests();
    let mut scratch = Scratch::new();
    let mut list = [0u16; 378];
    for i in 0..usize::from(head.edges) {
        let due = edges.edge(i);
        engine::take(&mut book, due, &mut tables, &mut scratch, &mut list);
    }
    book
}

// The book of a text, or the reason and the line at fault with a book of zeros.
pub fn read(text: &[u8]) -> Read
    ensures { Receives text.now result.book result.received }
{
    let mut edges = Edges::new();
    match text::find(text, &mut edges) {
        Ok(head) => Read {
            received: Ok(()),
            book: grow(head, &edges),
        },
        Err(refusal) => Read {
            received: Err(refusal),
            book: book::new_book(0, 0, 0),
        },
    }
}

// A report or a certificate of a text, before its first line. (A `State` is another type than `Read`, with one number more.)
pub fn begin(text: &[u8]) -> State
    ensures { Receives text.now result.book result.received × (result.line ≡ 0) }
{
    let r = read(text);
    State {
        received: r.received,
        book: r.book,
        line: 0,
    }
}
