// Lines, written into the unwritten rest of a lent buffer: each writer of a line is lent the part from the current end on and answers how
// far it wrote. Inside, a line is made from its front on: the functions `add_..` write from a place on and answer the place past it. What crate
// text puts at a front is put at a place by lending it the rest, `at + put::number(&mut buffer[at..], n)`.
#![tactic(auto)]

ghost use Rattle.std.specs.Prelude.{◌≡◌, [], ◌∷◌, ◌++◌, suc, ◌+◌, ◌≤◌, ◌<◌, length};
ghost use Rattle.rule.specs.Books.{edge_of};
ghost use Rattle.rule.specs.Calls.{Filled};
ghost use Rattle.text.specs.Lines.{LF, listed, line};
ghost use Rattle.text.specs.Sheets.{edge_text};
ghost use Rattle.text.specs.Puts.{Writes};
ghost use Rattle.reports.specs.Keys.{key_verdict, word_of};
ghost use Rattle.reports.specs.Reports.{book_line, book_lines};
ghost use Rattle.lines.specs.Adding.{Appends, item};

use rule::{Book, Verdict};
use text::put;

// ---- from a place on (a buffer and a place, and no part of it: `Appends` of specs/Adding.antt is about one buffer; docs/DECISIONS.md, point 39)

// One byte.
pub fn add_byte(buffer: &mut [u8], at: usize, x: u8) -> usize
    requires { at < length buffer.old }
    ensures { Appends (x ∷ []) buffer.old buffer.new at result }
{
    buffer[at] = x;
    at + 1
}

// The number x of a list, which stands at index i: all but the first come after a comma.
fn add_item(buffer: &mut [u8], at: usize, i: usize, x: usize) -> usize
    requires { at + length (item i x) ≤ length buffer.old }
    ensures { Appends (item i x) buffer.old buffer.new at result }
{
    if i == 0 {
        return at + put::number(&mut buffer[at..], x);
    }
    let next = add_byte(buffer, at, b',');
    next + put::number(&mut buffer[next..], x)
}

// The numbers of a list, with commas between.
fn add_list(buffer: &mut [u8], at: usize, list: &[u16]) -> usize
    requires { at + length (listed list.now) ≤ length buffer.old }
    ensures { Appends (listed list.now) buffer.old buffer.new at result }
{
    let mut next = at;
    for (i, x) in list.iter().enumerate() {
        next = add_item(buffer, next, i, usize::from(*x));
    }
    next
}

// ---- lines

// A line of a key and two numbers.
pub fn pair_line(buffer: &mut [u8], key: &[u8], one: usize, other: usize) -> usize
    requires { length (line key.now (one ∷ other ∷ [])) ≤ length buffer.old }
    ensures { Writes (line key.now (one ∷ other ∷ [])) buffer.old buffer.new result }
{
    let first = put::bytes(buffer, key);
    let second = add_item(buffer, first, 0, one);
    let end = add_item(buffer, second, 1, other);
    add_byte(buffer, end, b'\n')
}

// A line of a key and the numbers of a list.
pub fn list_line(buffer: &mut [u8], key: &[u8], list: &[u16]) -> usize
    requires { length (line key.now list.now) ≤ length buffer.old }
    ensures { Writes (line key.now list.now) buffer.old buffer.new result }
{
    let first = put::bytes(buffer, key);
    let end = add_list(buffer, first, list);
    add_byte(buffer, end, b'\n')
}

// The bytes of a list as the first numbers of a wider one; the places past them keep what they held.
pub fn widen(list: &[u8], wide: &mut [u16])
    requires { length list.now ≤ length wide.old }
    ensures { Filled list.now wide.old wide.new }
{
    for (i, x) in list.iter().enumerate() {
        wide[i] = u16::from(*x);
    }
}

// A line of a key and a word.
pub fn word_line(buffer: &mut [u8], key: &[u8], word: &[u8]) -> usize
    requires { length (key.now ++ (word.now ++ LF ∷ [])) ≤ length buffer.old }
    ensures { Writes (key.now ++ (word.now ++ LF ∷ [])) buffer.old buffer.new result }
{
    let end = put::bytes(buffer, key);
    let last = end + put::bytes(&mut buffer[end..], word);
    add_byte(buffer, last, b'\n')
}

// The verdict.
pub fn verdict_line(buffer: &mut [u8], v: Verdict) -> usize
    requires { 19 ≤ length buffer.old }
    ensures { Writes (key_verdict ++ (word_of v ++ LF ∷ [])) buffer.old buffer.new result }
{
    word_line(buffer, b"verdict=", reports::word_of(v))
}

// An edge: red where its colour is 1.
pub fn edge_line(buffer: &mut [u8], one: usize, other: usize, colour: u8) -> usize
    requires { length (edge_text (record { one = one; other = other; colour = colour })) ≤ length buffer.old }
    ensures { Writes (edge_text (record { one = one; other = other; colour = colour })) buffer.old buffer.new result }
{
    if colour == 1 {
        return pair_line(buffer, b"red=", one, other);
    }
    pair_line(buffer, b"black=", one, other)
}

// ---- the text of a book

// The edge after e others, as it was given.
fn given_line(book: &Book, e: u16, buffer: &mut [u8]) -> usize
    requires e_lt_count { (e < book.now.count) × (book.now.count ≤ 512) }
    requires e_in_bounds { length (edge_text (edge_of book.now (suc e))) ≤ length buffer.old }
    ensures { Writes (edge_text (edge_of book.now (suc e))) buffer.old buffer.new result }
{
    let edge = book.edge(usize::from(e));
    let one = usize::from(edge.one);
    let other = usize::from(edge.other);
    edge_line(buffer, one, other, edge.colour)
}

// Line i of the text of a book, counted from 0: the four lines of the head, and then the edges in order. (A match on a number: `book_line` of crate reports says which line
// a number is.)
pub fn book_line(book: &Book, i: u16, buffer: &mut [u8]) -> usize
    requires i_bound { (i < (book_lines book.now).number) × (book.now.count ≤ 512) }
    requires i_in_bounds { length (book_line book.now i) ≤ length buffer.old }
    ensures { Writes (book_line book.now i) buffer.old buffer.new result }
{
    match i {
        0 => put::number_line(buffer, b"a=", usize::from(book.a)),
        1 => put::number_line(buffer, b"b=", usize::from(book.b)),
        2 => put::number_line(buffer, b"bodies=", usize::from(book.n)),
        3 => put::number_line(buffer, b"edges=", usize::from(book.count)),
        _ => given_line(book, i - 4, buffer),
    }
}

// The same from a place on. (Beside `book_line`: its clause is over the whole buffer, which the loop of crate writer keeps.)
pub fn add_book_line(buffer: &mut [u8], at: usize, book: &Book, i: u16) -> usize
    requires i_bound { (i < (book_lines book.now).number) × (book.now.count ≤ 512) }
    requires i_in_bounds { at + length (book_line book.now i) ≤ length buffer.old }
    ensures { Appends (book_line book.now i) buffer.old buffer.new at result }
{
    at + book_line(book, i, &mut buffer[at..])
}
