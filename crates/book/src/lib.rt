// What only looks at a book: opening, the soundness scan, the checks that an offer and a question share, and (in tally.rt) freedom, dropped
// and the verdict. The relations that the contracts cite are those of crate rule, specs/Calls.antt and specs/Reasons.antt.
//
// The scan goes through the edges in order and adds each kept one to the tables of the forests (crate tables), so that a loop shows as an
// edge whose ends its forest already joins, and the tables stand ready for the search when the book is sound.
#![tactic(auto)]

mod tally;

ghost use Rattle.std.specs.Prelude.{◌≡◌, ◌↔◌, List, ℕ, ◌≤◌, ◌<◌, length};
ghost use Rattle.rule.specs.Sets.{Is, In};
ghost use Rattle.rule.specs.Books.{HeadRule, ColourRange, the_edge};
ghost use Rattle.rule.specs.Reasons.{question_checks, offer_checks, book_checks};
ghost use Rattle.rule.specs.Calls.{new_book, Open};
ghost use Rattle.book.specs.Checks.{edge_checks, HoldsForests, FoundBy};
ghost use Rattle.book.specs.Scan.{Permits, EdgeFine, Plantable, EdgePlanted, Cleared, Scanned};

use rule::{Book, Edge, Reason};
use tables::Tables;
pub use tally::{dropped, free_of, freedom, implied_of, judge, kept, verdict};

// ---- numbers in range

// i is one of 1 to m.
fn among(m: usize, i: usize) -> bool
    ensures { Is result ↔ In m i }
{
    1 <= i && i <= m
}

// i and j are.
fn both_among(m: usize, i: usize, j: usize) -> bool
    ensures { Is result ↔ (In m i × In m j) }
{
    among(m, i) && among(m, j)
}

// ---- opening

// What an opening answers, and the book.
// (A struct and no `Result` over the book: a refused opening gives a book of zeros, as `Open` says; docs/DECISIONS.md, point 8.)
#[derive(Clone, Copy)]
pub struct Opened {
    pub answer: Result<(), Reason>,
    pub book: Book,
}

// A book with this head, and zeros in every edge place.
pub fn new_book(a: u8, b: u8, n: u8) -> Book
    ensures { result ≡ new_book a b n }
{
    Book {
        a,
        b,
        n,
        count: 0,
        ones: [0; 512],
        others: [0; 512],
        colours: [0; 512],
        forests: [0; 512],
    }
}

// (`as`: the numbers are in range by then, and u8 has no `From<usize>`.)
pub fn open(a: usize, b: usize, n: usize) -> Opened
    ensures { Open a b n result.book result.answer }
{
    if !both_among(3, a, b) {
        return Opened {
            answer: Err(Reason::Profile),
            book: new_book(0, 0, 0),
        };
    }
    if !among(64, n) {
        return Opened {
            answer: Err(Reason::Bodies),
            book: new_book(0, 0, 0),
        };
    }
    Opened {
        answer: Ok(()),
        book: new_book(a as u8, b as u8, n as u8),
    }
}

// ---- the soundness scan

fn head_fine(book: &Book) -> bool
    ensures { Is result ↔ HeadRule book.now }
{
    if !both_among(3, usize::from(book.a), usize::from(book.b)) {
        return false;
    }
    if !among(64, usize::from(book.n)) {
        return false;
    }
    book.count <= 512
}

// The forest number is one that the colour may have.
fn permitted(book: &Book, colour: u8, forest: u8) -> bool
    requires { (book.now.a ≤ 3) × (book.now.b ≤ 3) }
    ensures { Is result ↔ Permits book.now.a book.now.b colour forest }
{
    if colour == 1 {
        return forest <= book.a;
    }
    colour == 2 && forest <= book.a + book.b
}

// The edge has two different bodies of the book, a colour and a permitted forest number.
fn edge_fine(book: &Book, edge: Edge, forest: u8) -> bool
    requires { (book.now.a ≤ 3) × (book.now.b ≤ 3) }
    ensures { Is result ↔ EdgeFine book.now edge forest }
{
    let n = usize::from(book.n);
    if !both_among(n, usize::from(edge.one), usize::from(edge.other)) {
        return false;
    }
    if edge.one == edge.other {
        return false;
    }
    permitted(book, edge.colour, forest)
}

// Edge e is added to its forest, where it has one; false where it closes a loop.
fn plant(e: u16, edge: Edge, forest: u8, tables: &mut Tables) -> bool
    requires { Plantable edge forest tables.old }
    ensures { EdgePlanted edge forest e tables.old tables.new result }
{
    if forest == 0 {
        return true;
    }
    let f = usize::from(forest);
    let x = usize::from(edge.one);
    let y = usize::from(edge.other);
    if tables.labels.joined(f, x, y) {
        return false;
    }
    planting::add(f, x, y, e, tables);
    true
}

// No slot is filled.
fn clear(size: &mut [u8; 6])
    ensures { Cleared size.new }
{
    *size = [0; 6];
}

// The first edge that breaks its rule, or none, and then the tables hold the forests.
// (A labelled `loop` that yields the number: docs/DECISIONS.md, "The forms that 01 names", has this form for the scan.)
pub fn scan(book: &Book, tables: &mut Tables) -> Option<u16>
    requires { HeadRule book.now }
    ensures { Scanned book.now result tables.new }
{
    labels::begin(&mut tables.labels);
    clear(&mut tables.size);
    let mut e: u16 = 0;
    let place = 'scan: loop {
        if book.count <= e {
            break 'scan None;
        }
        let i = usize::from(e);
        e += 1;
        let edge = book.edge(i);
        let forest = book.forests[i];
        if !edge_fine(book, edge, forest) {
            break 'scan Some(e);
        }
        if !plant(e, edge, forest, tables) {
            break 'scan Some(e);
        }
    };
    place
}

// ---- the checks

// Check 8: the book is sound, and then the tables hold its forests.
pub fn sound(book: &Book, tables: &mut Tables) -> Result<(), Reason>
    ensures { FoundBy (book_checks book.now) (HoldsForests book.now tables.new) result }
{
    if !head_fine(book) {
        return Err(Reason::Unsound(0));
    }
    match scan(book, tables) {
        None => Ok(()),
        Some(place) => Err(Reason::Unsound(place)),
    }
}

fn coloured(colour: usize) -> bool
    ensures { Is result ↔ ColourRange colour }
{
    colour == 1 || colour == 2
}

// The checks 5, 3, 4 and 7 of an edge that is offered to a book of n bodies, with a list of so many places.
// (Here and below three numbers and no `Edge`: a call's numbers may be of any size, and an edge holds bytes; docs/DECISIONS.md, points 7 and 54.)
fn asked(n: u8, u: usize, v: usize, colour: usize, places: usize) -> Result<(), Reason>
    ensures { (list : List ℕ) → length list ≡ places → FoundBy (edge_checks n (the_edge u v colour) list) Unit result }
{
    if !coloured(colour) {
        return Err(Reason::Colour);
    }
    if !both_among(usize::from(n), u, v) {
        return Err(Reason::Body);
    }
    if u == v {
        return Err(Reason::SameBody);
    }
    if places < 378 {
        return Err(Reason::Short);
    }
    Ok(())
}

// The checks of a question: 8, 5, 3, 4, 7. Where all pass, the tables hold the book's forests.
// (A `let .. else` and no `?`: docs/DECISIONS.md, "The forms that 01 names", has this form for the shared checks.)
pub fn question_checks(
    book: &Book,
    u: usize,
    v: usize,
    colour: usize,
    places: usize,
    tables: &mut Tables,
) -> Result<(), Reason>
    ensures { (list : List ℕ) → length list ≡ places → FoundBy (question_checks book.now (the_edge u v colour) list) (HoldsForests book.now tables.new) result }
{
    let checked = sound(book, tables);
    let Ok(()) = checked else {
        return checked;
    };
    asked(book.n, u, v, colour, places)
}

// The checks of an offer: the same, and then 6.
pub fn offer_checks(
    book: &Book,
    u: usize,
    v: usize,
    colour: usize,
    places: usize,
    tables: &mut Tables,
) -> Result<(), Reason>
    ensures { (list : List ℕ) → length list ≡ places → FoundBy (offer_checks book.now (the_edge u v colour) list) (HoldsForests book.now tables.new) result }
{
    let checked = question_checks(book, u, v, colour, places, tables);
    let Ok(()) = checked else {
        return checked;
    };
    if book.count < 512 {
        return Ok(());
    }
    Err(Reason::Full)
}

// Check 8 alone, with tables of its own.
pub fn sound_alone(book: &Book) -> Result<(), Reason>
    ensures { FoundBy (book_checks book.now) Unit result }
{
    let mut tables = Tables::new();
    sound(book, &mut tables)
}
