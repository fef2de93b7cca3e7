// Lines that ask about the book as it is, and leave it so.
use crate::commands::Named;
use cases::say::{self, Numbers, Output};
use rule::Book;
use std::fmt::{self, Write};

// The same edge asked about and offered, with one list that has as many places as the line says.
pub fn ask(out: &mut Output, edge: Named, places: usize, book: &Book) -> fmt::Result {
    let mut space = [0u16; 378];
    let Some(list) = space.get_mut(..places) else {
        return Ok(());
    };
    let asked = step::question(*book, edge.one, edge.other, edge.colour, list);
    out.write_str(" question")?;
    say::answer_in_pieces(out, asked, list)?;
    let offered = step::offer(*book, edge.one, edge.other, edge.colour, list);
    out.write_str(" offer")?;
    say::answer_in_pieces(out, offered.answer, list)
}

// An edge is offered with a list of sevens, whose first places are written then: past the answer they are sevens still.
pub fn lent(out: &mut Output, edge: Named, book: &Book) -> fmt::Result {
    let mut list = [7u16; 380];
    let offered = step::offer(*book, edge.one, edge.other, edge.colour, &mut list);
    say::answer_in_pieces(out, offered.answer, &list)?;
    write!(out, " list={}", Numbers(&list[..4]))
}

// A group list of so many places.
pub fn short_groups(out: &mut Output, places: usize, book: &Book) -> fmt::Result {
    let mut space = [0u8; 64];
    match space.get_mut(..places) {
        Some(list) => say::done_in_pieces(out, groups::groups(*book, list)),
        None => Ok(()),
    }
}

fn group_list(out: &mut Output, book: &Book) -> fmt::Result {
    let mut list = [0u8; 64];
    let grouped = groups::groups(*book, &mut list);
    let leaders = Numbers::first(&list, usize::from(book.n));
    say::found_in_pieces(out, " groups", grouped.map(|()| leaders))
}

pub fn free(out: &mut Output, book: &Book) -> fmt::Result {
    say::found_in_pieces(out, " free", book::freedom(*book))
}

// Everything that is asked of a book at its end.
pub fn close(out: &mut Output, book: &Book) -> fmt::Result {
    free(out, book)?;
    say::found_in_pieces(out, " dropped", book::dropped(*book))?;
    say::judged(out, book::verdict(*book))?;
    group_list(out, book)
}
