// Lines that change the book: calls, with what they answer written, and edits that may damage it.
use crate::commands::Named;
use cases::say::{self, Output};
use rule::Book;
use std::fmt;

// ---- the calls

pub fn open(out: &mut Output, [a, b, bodies]: [usize; 3], book: &mut Book) -> fmt::Result {
    let opened = book::open(a, b, bodies);
    *book = opened.book;
    say::done_in_pieces(out, opened.answer)
}

// The edge is offered, and the answer written.
pub fn offer(out: &mut Output, edge: Named, book: &mut Book) -> fmt::Result {
    let mut list = [0u16; 378];
    let offered = step::offer(*book, edge.one, edge.other, edge.colour, &mut list);
    *book = offered.book;
    say::answer_in_pieces(out, offered.answer, &list)
}

// ---- large books

// The same edge is offered so many times, and nothing is written.
pub fn several(edge: Named, times: usize, book: &mut Book) {
    let mut list = [0u16; 378];
    for _ in 0..times {
        *book = step::offer(*book, edge.one, edge.other, edge.colour, &mut list).book;
    }
}

// Between each two of the bodies 1 to 64 that follow each other, so many red and black edges.
pub fn pairs([reds, blacks]: [usize; 2], book: &mut Book) {
    for one in 1..64 {
        for (colour, times) in [(1, reds), (2, blacks)] {
            let edge = Named {
                one,
                other: one + 1,
                colour,
            };
            several(edge, times, book);
        }
    }
}

// ---- edits

// A book with this head, and one number in every edge place.
pub fn strewn(a: u8, b: u8, n: u8, count: u16, x: u8) -> Book {
    let all = [x; 512];
    Book {
        a,
        b,
        n,
        count,
        ones: all,
        others: all,
        colours: all,
        forests: all,
    }
}

// A number as a byte: what is past 255 begins again from 0.
fn small(x: usize) -> u8 {
    (x % 256) as u8
}

pub fn head([a, b, bodies, count, x]: [usize; 5]) -> Book {
    strewn(
        small(a),
        small(b),
        small(bodies),
        // (`as`: what is past 65,535 begins again from 0, as the file stdin says.)
        (count % 65536) as u16,
        small(x),
    )
}

// An edge, with its forest, in a place of the book, counted from 1.
pub fn put(place: usize, edge: Named, forest: usize, book: &mut Book) {
    if 0 < place && place <= 512 {
        let e = place - 1;
        book.ones[e] = small(edge.one);
        book.others[e] = small(edge.other);
        book.colours[e] = small(edge.colour);
        book.forests[e] = small(forest);
    }
}
