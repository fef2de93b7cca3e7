// Offer and question: the calls that judge an edge. Each takes any numbers and any book. The relations that the contracts cite are those of
// crate rule, specs/Calls.antt.
//
// Both check, and so scan the book, whose forests the tables then hold; then an offer takes the edge (crate engine), and a question
// only seeks its place.
#![tactic(auto)]

ghost use Rattle.std.specs.Prelude.{◌≡◌, ◌≤◌};
ghost use Rattle.rule.specs.Books.{the_edge};
ghost use Rattle.rule.specs.Calls.{Offer, Question};
ghost use Rattle.engine.specs.Take.{TakeableIn};
ghost use Rattle.step.specs.Answers.{AskableIn};

use engine::{Place, Scratch};
use rule::{Answer, Book, Edge};
use tables::Tables;

// What an offer answers, and the book after it. (A struct: every answer hands a book back; docs/DECISIONS.md, point 8.)
#[derive(Clone, Copy)]
pub struct Offered {
    pub answer: Answer,
    pub book: Book,
}

// The edge between u and v of a colour, which each fit into a byte.
// (`as`, here and below: the numbers fit, and `try_from` would have a refusal that no call can answer.)
fn as_edge(u: usize, v: usize, colour: usize) -> Edge
    requires { (u ≤ 255) × ((v ≤ 255) × (colour ≤ 255)) }
    ensures { result ≡ the_edge u v colour }
{
    Edge {
        one: u as u8,
        other: v as u8,
        colour: colour as u8,
    }
}

// An edge that passed the checks of an offer is taken.
fn taken(book: &Book, edge: Edge, tables: &mut Tables, list: &mut [u16]) -> Offered
    requires { TakeableIn book.now edge list.old tables.old }
    ensures { Offer book.now result.book edge list.old list.new result.answer }
{
    let mut longer = *book;
    let mut scratch = Scratch::new();
    let answer = engine::take(&mut longer, edge, tables, &mut scratch, list);
    Offered {
        answer,
        book: longer,
    }
}

// The edge between u and v, of a colour, is offered to the book. Kept, it answers how many edges moved; implied, how many numbers its
// circuit has, and the list holds them. (No `?`: a refusal hands the book back too.)
pub fn offer(book: Book, u: usize, v: usize, colour: usize, list: &mut [u16]) -> Offered
    ensures { Offer book result.book (the_edge u v colour) list.old list.new result.answer }
{
    let mut tables = Tables::new();
    let checked = book::offer_checks(&book, u, v, colour, list.len(), &mut tables);
    if let Err(reason) = checked {
        return Offered {
            answer: Answer::Refused(reason),
            book,
        };
    }
    let edge = as_edge(u, v, colour);
    taken(&book, edge, &mut tables, list)
}

// An edge that passed the checks of a question is sought a place for. (Its match is beside that of `engine::take`, which moves edges in between.)
fn sought(book: &Book, edge: Edge, tables: &Tables, list: &mut [u16]) -> Answer
    requires { AskableIn book.now edge list.old tables.now }
    ensures { Question book.now edge list.old list.new result }
{
    match engine::place_for(book, edge, tables, list) {
        Place::Found(n, f) => Answer::Kept(n as u16),
        Place::Stuck(n) => Answer::Implied(n),
    }
}

// What an offer would answer. The book stays as it is, and may be full. (No `?`: an `Answer` has a refusal of its own.)
pub fn question(book: Book, u: usize, v: usize, colour: usize, list: &mut [u16]) -> Answer
    ensures { Question book (the_edge u v colour) list.old list.new result }
{
    let mut tables = Tables::new();
    let checked = book::question_checks(&book, u, v, colour, list.len(), &mut tables);
    if let Err(reason) = checked {
        return Answer::Refused(reason);
    }
    let edge = as_edge(u, v, colour);
    sought(&book, edge, &tables, list)
}
