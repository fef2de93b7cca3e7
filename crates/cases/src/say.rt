// What the calls answer, written behind the name of its case: a word and, where there is one, a number or a list.
//
// Moved is not written: it goes with the choice of forests, which document 01 leaves open.
ghost use Rattle.std.specs.Prelude.{◌≡◌, take, IfOk, IsOk};

// (A module of its own, since `io` is std's below.)
mod raw {
    pub(crate) use io::write_all;
}

use raw::write_all;
use rule::{Answer, Reason, Verdict};
use std::fmt::{self, Write};
use std::io;

// Standard output, a piece at a time: each piece is a write of its own, and one that fails is passed over, so that those after it are tried all the same.
// (No `print!`: it gathers the pieces of a text before it writes, and where that fails the first of them is lost with the last.)
#[derive(Clone, Copy)]
pub struct Output;

impl Output {
    // Bytes that need not be text, as one piece.
    pub fn bytes(&mut self, bytes: &[u8]) {
        write_all(1, bytes);
    }
}

impl fmt::Write for Output {
    fn write_str(&mut self, s: &str) -> fmt::Result {
        self.bytes(s.as_bytes());
        Ok(())
    }
}

// Numbers with commas between.
#[derive(Clone, Copy)]
pub struct Numbers<'a, T>(pub &'a [T]);

impl<'a, T> Numbers<'a, T> {
    // The first n of a list, or all of a shorter one.
    pub fn first(list: &'a [T], n: usize) -> Numbers<'a, T>
        ensures { result.0.now ≡ take n list.now }
    {
        Numbers(&list[..n.min(list.len())])
    }
}

impl<T: fmt::Display> fmt::Display for Numbers<'_, T> {
    fn fmt<W: fmt::Write>(&self, f: &mut fmt::Formatter<W>) -> fmt::Result {
        for (i, x) in self.0.iter().enumerate() {
            if 0 < i {
                write!(f, ",")?;
            }
            write!(f, "{x}")?;
        }
        Ok(())
    }
}

// The number of a refusal, with the place of an unsound book.
#[derive(Clone, Copy)]
struct Refused(Reason);

impl fmt::Display for Refused {
    fn fmt<W: fmt::Write>(&self, f: &mut fmt::Formatter<W>) -> fmt::Result {
        write!(f, " refused={}", usize::from(self.0))?;
        if let Reason::Unsound(place) = self.0 {
            write!(f, ",{place}")?;
        }
        Ok(())
    }
}

// ---- to any `Print`: what is said is one call of it, and where that fails the error is handed back

// A verdict, as its line of a report has it.
#[derive(Clone, Copy)]
pub struct Word(pub Verdict);

impl fmt::Display for Word {
    fn fmt<W: fmt::Write>(&self, f: &mut fmt::Formatter<W>) -> fmt::Result {
        for x in reports::word_of(self.0) {
            f.write_char(char::from(*x))?;
        }
        Ok(())
    }
}

pub fn answer(rt: &impl Print, said: Answer, list: &[u16]) -> io::Result<()> {
    match said {
        Answer::Kept(_) => print!(rt; " kept"),
        Answer::Implied(n) => print!(rt; " implied={}", Numbers::first(list, usize::from(n))),
        Answer::Refused(reason) => print!(rt; "{}", Refused(reason)),
    }
}

pub fn done(rt: &impl Print, said: Result<(), Reason>) -> io::Result<()>
    ensures { IfOk said (λ x. IsOk result) }
{
    match said {
        Ok(()) => Ok(()), // nothing, where the call did what was asked
        Err(reason) => print!(rt; "{}", Refused(reason)),
    }
}

// What was asked for, behind a space, and the answer. (`found_in_pieces` is given the space too.)
pub fn found<T: fmt::Display + Drop>(
    rt: &impl Print,
    what: &str,
    said: Result<T, Reason>,
) -> io::Result<()> {
    match said {
        Ok(value) => print!(rt; " {what}={value}"),
        Err(reason) => print!(rt; " {what}{}", Refused(reason)),
    }
}

// ---- the same to standard output, each piece a write of its own, and one that fails is passed over: so the programs of the gate write

// A figure of a book: its value behind the sign.
#[derive(Clone, Copy)]
struct Value<T>(T);

impl<T: fmt::Display> fmt::Display for Value<T> {
    fn fmt<W: fmt::Write>(&self, f: &mut fmt::Formatter<W>) -> fmt::Result {
        write!(f, "={}", self.0)
    }
}

// A verdict behind the sign, as one piece. (So the words stand here once more: those of `reports::word_of` have no sign in front.)
#[derive(Clone, Copy)]
struct SignedWord(Verdict);

impl fmt::Display for SignedWord {
    fn fmt<W: fmt::Write>(&self, f: &mut fmt::Formatter<W>) -> fmt::Result {
        f.write_str(match self.0 {
            Verdict::Tight => "=tight",
            Verdict::Loose => "=loose",
            Verdict::OverTight => "=over-tight",
            Verdict::OverLoose => "=over-loose",
        })
    }
}

pub fn answer_in_pieces(out: &mut Output, said: Answer, list: &[u16]) -> fmt::Result {
    match said {
        Answer::Kept(_) => out.write_str(" kept"),
        Answer::Implied(n) => write!(out, " implied={}", Numbers::first(list, usize::from(n))),
        Answer::Refused(reason) => write!(out, "{}", Refused(reason)),
    }
}

// Nothing where the call did what was asked.
pub fn done_in_pieces(out: &mut Output, said: Result<(), Reason>) -> fmt::Result {
    match said {
        Ok(()) => Ok(()),
        Err(reason) => write!(out, "{}", Refused(reason)),
    }
}

// What was asked for, and the answer behind it.
fn said<T: fmt::Display + Drop>(
    out: &mut Output,
    what: &str,
    answer: Result<T, Reason>,
) -> fmt::Result {
    out.write_str(what)?;
    match answer {
        Ok(value) => write!(out, "{value}"),
        Err(reason) => write!(out, "{}", Refused(reason)),
    }
}

// The same with the sign between them.
pub fn found_in_pieces<T: fmt::Display + Drop>(
    out: &mut Output,
    what: &str,
    answer: Result<T, Reason>,
) -> fmt::Result {
    said(out, what, answer.map(Value))
}

pub fn judged(out: &mut Output, answer: Result<Verdict, Reason>) -> fmt::Result {
    said(out, " verdict", answer.map(SignedWord))
}
