// The text of a book, written into a lent buffer: document 01, "Book text". Its lines are those that a certificate begins with, and one function
// writes both (crate lines).
#![tactic(auto)]

ghost use Rattle.std.specs.Prelude.{◌≤◌, length};
ghost use Rattle.rule.specs.Books.{Sound};
ghost use Rattle.text.specs.Sheets.{text_of, text_room};
ghost use Rattle.text.specs.Puts.{Writes};
ghost use Rattle.reports.specs.Reads.{sheet_of, Written};

use rule::{Book, Reason};

// The text of a sound book.
fn text_of(book: &Book, buffer: &mut [u8]) -> usize
    requires { Sound book.now × (text_room ≤ length buffer.old) }
    ensures { Writes (text_of (sheet_of book.now)) buffer.old buffer.new result }
{
    let number = 4 + book.count;
    let mut end = 0;
    for i in 0..number {
        end = lines::add_book_line(buffer, end, book, i);
    }
    end
}

// The text of a book, and how many bytes it has. Checks 8, then 7. `as`: a sound text has at most 6,172 bytes, and `try_from` would add an error that
// never comes.
pub fn write(book: Book, buffer: &mut [u8]) -> Result<u16, Reason>
    ensures { Written book buffer.old buffer.new result }
{
    book::sound_alone(&book)?;
    if buffer.len() < 6172 {
        return Err(Reason::Short);
    }
    let end = text_of(&book, buffer);
    Ok(end as u16)
}
