// Texts that a host might hand over: most of them are no book. For each, its name, the line at fault as the library hands it back, in brackets and
// with bytes that do not print as their number, and the first line of its report. The texts are read from standard input: the file stdin says how they
// are written there, and tests/texts.py reads it too. The file stdout has what document 01 says of them, decided by hand.
#![tactic(auto)]

mod lay;

use cases::say::Output;
use lay::Text;
use pager::Kind;
use reports::Line;
use std::fmt::{self, Result, Write};

// ---- what is written

// Bytes, with those that do not print as their number.
#[derive(Clone, Copy)]
struct Shown<'a>(&'a [u8]);

impl fmt::Display for Shown<'_> {
    fn fmt<W: fmt::Write>(&self, f: &mut fmt::Formatter<W>) -> fmt::Result {
        for x in self.0 {
            match *x {
                b' '..=b'~' => f.write_char(char::from(*x))?,
                x => write!(f, "<{x}>")?,
            }
        }
        Ok(())
    }
}

// The first line of the report.
fn first_line(out: &mut Output, book: &[u8]) -> Result {
    let mut buffer = [0u8; 2048];
    let stepped = pager::next(Kind::Report, reader::begin(book), &mut buffer);
    match stepped.answer {
        Line::Written(size) => out.bytes(&buffer[..size]),
        Line::Over => out.bytes(b"over\n"),
        Line::Refused(_) => out.bytes(b"refused\n"),
    }
    Ok(())
}

fn outcome(out: &mut Output, book: &[u8]) -> Result {
    write!(out, " [{}] ", Shown(text::fault(book)))?;
    first_line(out, book)
}

// ---- the file of cases

// The case is whole. A text that was cut is no case.
fn finish(out: &mut Output, case: &Option<Text>, number: usize) -> Result {
    let Some(text) = case else {
        return Ok(());
    };
    match text.whole() {
        Some(book) => outcome(out, book),
        None => cases::bad_in_pieces(out, number),
    }
}

fn run(out: &mut Output, file: &[u8]) -> Result {
    let mut case = None;
    let mut number = 0;
    for (i, line) in file.split_inclusive(|x| *x == b'\n').enumerate() {
        number = i + 1;
        if cases::silent(line) {
            continue;
        }
        if let Some(name) = cases::name(line) {
            finish(out, &case, number)?;
            out.bytes(name);
            // (In the same room, which is cleared once and not for each case.)
            case.get_or_insert_with(Text::new).clear();
        } else if case
            .as_mut()
            .and_then(|text| lay::line(line, text))
            .is_none()
        {
            cases::bad_in_pieces(out, number)?;
        }
    }
    finish(out, &case, number)
}

// A write that fails is not told, and those after it are tried.
fn main() {
    let mut file = [0u8; 65536];
    let n = io::read_full(0, &mut file);
    let _ = run(&mut Output, &file[..n]);
}
