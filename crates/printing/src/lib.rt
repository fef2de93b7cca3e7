// What the two programs do: a book text of at most 8,192 bytes is read from standard input, and its report or its certificate is handed to standard
// output, a page of whole lines at a time. Longer input is judged by its first 8,192 bytes, which are never a book.
//
// What was handed over is a value of module output, which only that module makes: each page is required to be the lines that are next, and at the
// end all lines have come, unless a read or a write has failed; after that nothing further is written.
#![tactic(auto)]

mod output;

ghost use Rattle.std.specs.Prelude.{◌≡◌, take};
ghost use Rattle.std.specs.ControlFlow.{MatchControlFlow};
ghost use Rattle.io.specs.Counts.{IsPrefixLen};
ghost use Rattle.printing.specs.Sending.{Sendable, Sends, BeforeTurn, SentFurther, SentLast, turn_after, LinesSent, TextSent, Got, InputSent, Printed};

pub use output::Sent;
use pager::Kind;
use reports::{Line, State};
use std::io::Read;
use std::ops::ControlFlow;

// ---- the input

// A read failed.
#[derive(Clone, Copy, Debug, PartialEq, Eq)]
pub struct Unread;

// What was read: so many bytes, up to the end of the input or as many as there are places; or a read failed. (With an error of its own: that a read failed is all
// that is told.)
pub type Input = Result<usize, Unread>;

// Reads until the buffer is full or the input ends, and answers how many bytes came. A read that fails is told from the end of the input, which
// io::read_full does not do.
fn read_input<R: Read>(reader: &mut R, input: &mut [u8]) -> Input
    ensures { Got result input.new }
{
    let mut done: usize = 0;
    // No plainer as a `for`: each turn goes on by as many bytes as came, so that no range and no slice gives the turns.
    while done < input.len() {
        let Ok(more) = reader.read(&mut input[done..]) else {
            return Err(Unread);
        };
        if more == 0 {
            return Ok(done);
        }
        done += more;
    }
    Ok(done)
}

// ---- the pages

// A page was handed over, and there may be more, unless the write failed.
fn after_page(sent: Sent) -> ControlFlow<Sent, Sent>
    ensures { result ≡ turn_after sent }
{
    if output::has_failed(sent) {
        ControlFlow::Break(sent)
    } else {
        ControlFlow::Continue(sent)
    }
}

// The first bytes of a buffer are handed over. (A buffer and a size: so the page answers them, `Written(size)`.)
fn send_front(sent: Sent, after: State, buffer: &[u8], size: usize) -> Sent
    requires { IsPrefixLen size buffer.now × Sendable sent after (take size buffer.now) }
    ensures { Sends sent after result }
{
    output::send(sent, after, &buffer[..size])
}

// The next page is asked for and handed over. What was handed over by then goes on, or breaks off where this turn was the last.
fn send_page(sent: Sent, buffer: &mut [u8]) -> ControlFlow<Sent, Sent>
    requires { BeforeTurn sent buffer.old }
    ensures { MatchControlFlow result (SentFurther sent) (SentLast sent) }
{
    let page = output::next_page(sent, buffer);
    match page.answer {
        Line::Written(size) => after_page(send_front(sent, page.state, buffer, size)),
        Line::Over => ControlFlow::Break(sent),
        Line::Refused(_) => ControlFlow::Break(sent),
    }
}

// All pages of what was begun, each handed over before the next is asked for. (`loop`: a turn says whether it was the last; no index is counted.)
fn send_pages(first: Sent, buffer: &mut [u8]) -> Sent
    requires { BeforeTurn first buffer.old × (first.state.line ≡ 0) }
    ensures { LinesSent first result }
{
    let mut sent = first;
    loop {
        match send_page(sent, buffer) {
            ControlFlow::Continue(further) => sent = further,
            ControlFlow::Break(last) => return last,
        }
    }
}

// The report or the certificate of a text, in pages of at most 16,384 bytes.
pub fn send_text(kind: Kind, text: &[u8]) -> Sent
    ensures { TextSent kind text.now result }
{
    let mut buffer = [0u8; 16384];
    send_pages(output::begin(kind, text), &mut buffer)
}

// ---- the programs

// The report or the certificate of what was read. (`got` says how many bytes of the input there are, or that a read failed: `Got` of specs/Sending.antt.)
fn send_input(kind: Kind, got: Input, input: &[u8]) -> Sent
    requires { Got got input.now }
    ensures { InputSent kind got input.now result }
{
    match got {
        Ok(n) => send_text(kind, &input[..n]),
        Err(Unread) => output::unread(kind),
    }
}

// What a program does. The input is whatever a reader gives: standard input, in the programs.
pub fn print<R: Read>(kind: Kind, reader: &mut R) -> Sent
    ensures { Printed kind result }
{
    let mut input = [0u8; 8192];
    let got = read_input(reader, &mut input);
    send_input(kind, got, &input)
}
