// The report and the certificate of a state, a page of lines at a time: as many lines as the lent buffer has room for, or only the next one.
// What the lines are, and what a page and a next line leave behind, is said in crate reports.
//
// Where the text was received as a book, a page scans that book, so that the tables hold its forests, from which the circuits are listed; then it
// checks the buffer. The lines are then written one behind the other, each into the unwritten rest of the buffer.
//
// Whether it is the report or the certificate is a parameter: a face for each would only say both functions and their contracts twice.
#![tactic(auto)]

mod certificate;
mod source;

ghost use Rattle.std.specs.Prelude.{◌≡◌, MatchOption, [], ◌∷◌, ◌++◌, suc, ◌≤◌, ◌<◌, length};
ghost use Rattle.rule.specs.Books.{design_of, forest_of, kept_of};
ghost use Rattle.rule.specs.Figures.{freedom, dropped, verdict};
ghost use Rattle.text.specs.Lines.{LF, line};
ghost use Rattle.text.specs.Puts.{Writes};
ghost use Rattle.reports.specs.Keys.{key_kept, key_free, key_dropped, key_verdict, word_of};
ghost use Rattle.reports.specs.Sections.{Nth};
ghost use Rattle.reports.specs.Reports.{freedom_after, EdgeLine, GroupsLine, figures};
ghost use Rattle.reports.specs.Steps.{Puts, Next, Page, report, certificate, line_room, written};
ghost use Rattle.pager.specs.Kinds.{form_of};
ghost use Rattle.pager.specs.Lent.{Tally, FullRun};

use crate::source::{Place, Source};
use reports::{Line, State, Stepped};
use rule::{Book, Reason};
use tables::Tables;
use text::Refusal;

// Which of the two a page is of. An enum with a match for each question, and no trait with two types: callers name it in `page` and `next`,
// which may not change.
#[derive(Clone, Copy, Debug, PartialEq, Eq)]
pub enum Kind {
    Report,
    Certificate,
}

// ---- the kept edges

// How many of the first i edges are kept. Past the edges nobody asks.
fn kept_before(source: Source<'_>, i: u16) -> u16
    ensures { Tally source.entry.book.now i result }
{
    let count = source.book.count;
    if count < i {
        return 0;
    }
    book::kept(i, &source.book.forests)
}

// The same with the edge of this place more.
fn kept_after(place: Place<'_>) -> u16
    ensures { Tally place.entry.source.book.now (suc place.entry.line) result }
{
    let count = place.source.book.count;
    let i = place.line;
    if count <= i {
        return place.kept;
    }
    let forest = place.source.forest_at(i);
    if forest == 0 {
        return place.kept;
    }
    place.kept + 1
}

// ---- the report

// A kept edge: the freedom after it.
fn kept_line(place: Place<'_>, buffer: &mut [u8; 2048]) -> usize
    requires edge { place.line < place.source.book.now.count }
    requires has_forest { 1 ≤ forest_of place.source.book.now (suc place.line) }
    ensures { Writes (line key_kept (freedom_after (design_of place.entry.source.book.now) (kept_of place.entry.source.book.now) (suc place.entry.line) ∷ [])) buffer.old buffer.new result }
{
    let a = usize::from(place.source.book.a);
    let b = usize::from(place.source.book.b);
    let n = usize::from(place.source.book.n);
    let full = (a + b) * (n - 1);
    let kept = usize::from(place.kept);
    text::put::number_line(buffer, b"kept=", full - (kept + 1))
}

// The edge after i others, kept or implied.
fn report_edge(place: Place<'_>, buffer: &mut [u8; 2048]) -> usize
    requires { place.line < place.source.book.now.count }
    ensures { Puts (EdgeLine (design_of place.entry.source.book.now) (kept_of place.entry.source.book.now) (λ e. kept_of place.entry.source.book.now) (suc place.entry.line)) buffer.old buffer.new result }
{
    let source = place.source;
    let i = place.line;
    let forest = source.forest_at(i);
    if forest == 0 {
        return circuits::implied_line(source.book, i + 1, source.tables, buffer);
    }
    kept_line(place, buffer)
}

// (Two functions, this and the next: one over key and figure would owe a clause on the key's length, and both names would stay.)
fn free_line(source: Source<'_>, buffer: &mut [u8; 2048]) -> usize
    ensures { Writes (line key_free (freedom (design_of source.entry.book.now) (kept_of source.entry.book.now) ∷ [])) buffer.old buffer.new result }
{
    let free = book::free_of(source.book);
    text::put::number_line(buffer, b"free=", usize::from(free))
}

fn dropped_line(source: Source<'_>, buffer: &mut [u8; 2048]) -> usize
    ensures { Writes (line key_dropped (dropped (design_of source.entry.book.now) (kept_of source.entry.book.now) ∷ [])) buffer.old buffer.new result }
{
    let implied = book::implied_of(source.book);
    text::put::number_line(buffer, b"dropped=", usize::from(implied))
}

fn judged_line(source: Source<'_>, buffer: &mut [u8; 2048]) -> usize
    ensures { Writes (key_verdict ++ (word_of (verdict (design_of source.entry.book.now) (kept_of source.entry.book.now)) ++ LF ∷ [])) buffer.old buffer.new result }
{
    lines::verdict_line(
        buffer,
        book::judge(book::free_of(source.book), book::implied_of(source.book)),
    )
}

fn groups_line(source: Source<'_>, buffer: &mut [u8; 2048]) -> usize
    ensures { Puts (GroupsLine (design_of source.entry.book.now) (kept_of source.entry.book.now)) buffer.old buffer.new result }
{
    let mut list = [0u8; 64];
    groups::list_groups(source.book, &mut list);
    let n = usize::from(source.book.n);
    let mut leaders = [0u16; 64];
    lines::widen(&list[..n], &mut leaders);
    lines::list_line(buffer, b"groups=", &leaders[..n])
}

// Line j of the figures of the whole book, counted from 0. (A match on a number: `figures` of crate reports says which line a number is.)
fn figure_line(source: Source<'_>, j: u16, buffer: &mut [u8; 2048]) -> usize
    requires { j < length (figures (design_of source.book.now) (kept_of source.book.now)) }
    ensures { Puts (Nth (figures (design_of source.entry.book.now) (kept_of source.entry.book.now)) j) buffer.old buffer.new result }
{
    match j {
        0 => free_line(source, buffer),
        1 => dropped_line(source, buffer),
        2 => judged_line(source, buffer),
        _ => groups_line(source, buffer),
    }
}

// A line of the report: the edges, then the figures of the whole book.
fn report_line(place: Place<'_>, buffer: &mut [u8; 2048]) -> usize
    requires { place.line < report.number place.source.book.now }
    ensures { Puts (report.Says place.entry.source.book.now place.entry.line) buffer.old buffer.new result }
{
    let count = place.source.book.count;
    let i = place.line;
    if i < count {
        return report_edge(place, buffer);
    }
    figure_line(place.source, i - count, buffer)
}

// ---- a page

// How many lines there are.
fn number_of_lines(kind: Kind, source: Source<'_>) -> u16
    ensures { result ≡ (form_of kind).number source.entry.book.now }
{
    let count = source.book.count;
    match kind {
        Kind::Report => count + 4,
        Kind::Certificate => 4 + count + count,
    }
}

// The line of either.
fn line(kind: Kind, place: Place<'_>, buffer: &mut [u8; 2048]) -> usize
    requires { place.line < (form_of kind).number place.source.book.now }
    ensures { Puts ((form_of kind).Says place.entry.source.book.now place.entry.line) buffer.old buffer.new result }
{
    match kind {
        Kind::Report => report_line(place, buffer),
        Kind::Certificate => certificate::certificate_line(place.source, place.line, buffer),
    }
}

// The line in the first places of the rest of a buffer, where a line's room is left.
fn next_line(kind: Kind, place: Place<'_>, rest: &mut [u8]) -> Option<usize>
    requires { place.line < (form_of kind).number place.source.book.now }
    ensures { MatchOption result ((length rest.old < line_room) × (rest.new ≡ rest.old)) (λ n.
        (line_room ≤ length rest.old) × Puts ((form_of kind).Says place.entry.source.book.now place.entry.line) rest.old rest.new n) }
{
    let room = rest.first_chunk_mut::<2048>()?;
    Some(line(kind, place, room))
}

// How far a page has come: the line that is next, and the end of what is written.
#[derive(Clone, Copy)]
pub struct PageEnd {
    pub line: u16,
    pub end: usize,
}

// The lines from one on, as long as there are some and a line's room is left.
fn fill(kind: Kind, source: Source<'_>, first: u16, buffer: &mut [u8]) -> PageEnd
    ensures { FullRun (form_of kind) source.entry.book.now first buffer.old buffer.new result }
{
    let number = number_of_lines(kind, source);
    let mut kept = kept_before(source, first);
    let mut end: usize = 0;
    for i in first..number {
        let place = Place {
            source,
            line: i,
            kept,
        };
        let Some(more) = next_line(kind, place, &mut buffer[end..]) else {
            return PageEnd { line: i, end };
        };
        end += more;
        kept = kept_after(place);
    }
    PageEnd {
        line: first.max(number),
        end,
    }
}

// The state with so many lines written.
fn further(state: State, line: u16) -> State
    ensures { result ≡ written state line }
{
    State { line, ..state }
}

// Check 7 refuses.
fn short(state: State) -> Stepped
    ensures { result ≡ record { answer = Line.Refused Reason.Short; state = state } }
{
    Stepped {
        answer: Line::Refused(Reason::Short),
        state,
    }
}

// The page of a book. Checks 8, then 7.
fn book_page(kind: Kind, state: State, buffer: &mut [u8]) -> Stepped
    requires { state.received ≡ Ok tt }
    ensures { Page (form_of kind) state result.state buffer.old buffer.new result.answer }
{
    let book = &state.book;
    let mut tables = Tables::new();
    if let Err(reason) = book::sound(book, &mut tables) {
        return Stepped {
            answer: Line::Refused(reason),
            state,
        };
    }
    if buffer.len() < 2048 {
        return short(state);
    }
    let source = Source {
        book,
        tables: &tables,
    };
    let first = state.line;
    if number_of_lines(kind, source) <= first {
        return Stepped {
            answer: Line::Over,
            state,
        };
    }
    let filled = fill(kind, source, first, buffer);
    Stepped {
        answer: Line::Written(filled.end),
        state: further(state, filled.line),
    }
}

// The page of a refused text: one line. It has no book to look at, so that only 7 is checked.
fn refused_page(state: State, refusal: Refusal, buffer: &mut [u8]) -> Stepped
    requires { state.received ≡ Err refusal }
    ensures { (kind : Kind) → Page (form_of kind) state result.state buffer.old buffer.new result.answer }
{
    if buffer.len() < 2048 {
        return short(state);
    }
    let first = state.line;
    if 0 < first {
        return Stepped {
            answer: Line::Over,
            state,
        };
    }
    let end = lines::pair_line(
        buffer,
        b"refused=",
        usize::from(refusal.reason),
        refusal.line,
    );
    Stepped {
        answer: Line::Written(end),
        state: further(state, 1),
    }
}

// As many lines as there are and the buffer has room for. Checks 8 where the text was received as a book, then 7.
pub fn page(kind: Kind, state: State, buffer: &mut [u8]) -> Stepped
    ensures { Page (form_of kind) state result.state buffer.old buffer.new result.answer }
{
    match state.received {
        Ok(()) => book_page(kind, state, buffer),
        Err(refusal) => refused_page(state, refusal, buffer),
    }
}

// The next line alone: a page that is lent a line's room. A line is never empty, so that after one there is less room than for another.
pub fn next(kind: Kind, state: State, buffer: &mut [u8]) -> Stepped
    ensures { Next (form_of kind) state result.state buffer.old buffer.new result.answer }
{
    if buffer.len() < 2048 {
        return page(kind, state, buffer);
    }
    page(kind, state, &mut buffer[..2048])
}
