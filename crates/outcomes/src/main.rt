// Small designs, refusals and large books with known outcomes: a line for each case, its name and what the calls answer. The cases are read from
// standard input, a call or an edit of the book to a line: the file stdin says which there are, and tests/known.py reads the designs there too. The
// file stdout has what the definitions of document 01 give.
#![tactic(auto)]

mod asks;
mod changes;
mod commands;

use cases::say::Output;
use commands::Command;
use rule::Book;
use std::fmt::{Result, Write};

fn carry_out(out: &mut Output, command: Command, book: &mut Book) -> Result {
    match command {
        Command::Open(head) => changes::open(out, head, book)?,
        Command::Offer(edge) => changes::offer(out, edge, book)?,
        Command::Times(edge, times) => changes::several(edge, times, book),
        Command::Pairs(times) => changes::pairs(times, book),
        Command::Head(numbers) => *book = changes::head(numbers),
        Command::Put(place, edge, forest) => changes::put(place, edge, forest, book),
        Command::Ask(edge, places) => asks::ask(out, edge, places, book)?,
        Command::Lent(edge) => asks::lent(out, edge, book)?,
        Command::Free => asks::free(out, book)?,
        Command::Close => asks::close(out, book)?,
        Command::Groups(places) => asks::short_groups(out, places, book)?,
    }
    Ok(())
}

// A line that begins a case ends the one before. Every case begins with a book of zeros. (A flag beside the book and no `Option`: lines before the first case work on a book
// too. The walk over lines is hostile's too, with other lines in its match.)
fn run(out: &mut Output, file: &[u8]) -> Result {
    let zeros = changes::strewn(0, 0, 0, 0, 0);
    let mut book = zeros;
    let mut begun = false;
    for (i, line) in file.split_inclusive(|x| *x == b'\n').enumerate() {
        if cases::silent(line) {
            continue;
        }
        if let Some(name) = cases::name(line) {
            if begun {
                out.write_str("\n")?;
            }
            out.bytes(name);
            book = zeros;
            begun = true;
        } else if let Some(command) = commands::read(line) {
            carry_out(out, command, &mut book)?;
        } else {
            cases::bad_in_pieces(out, i + 1)?;
        }
    }
    out.write_str("\n")
}

// A write that fails is not told, and those after it are tried.
fn main() {
    let mut file = [0u8; 65536];
    let n = io::read_full(0, &mut file);
    let _ = run(&mut Output, &file[..n]);
}
