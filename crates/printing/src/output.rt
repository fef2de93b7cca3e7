// What was handed to standard output, as a value that nobody can make up: its fields are private to this module, it begins with a text that was
// read, and it goes on by handing over the lines that are next. No contract of the C library says what a write does with its bytes; this module
// says which bytes they are, and in what order they come.
ghost use Rattle.std.specs.Prelude.{◌≡◌};
ghost use Rattle.reports.specs.Steps.{Page};
ghost use Rattle.pager.specs.Kinds.{form_of};
ghost use Rattle.printing.specs.Sending.{AtFirstLine, NothingSent, Sendable, Sends};

use pager::Kind;
use reports::{State, Stepped};

// Of which report or certificate lines were handed over, the state after them, and whether a read or a write has failed. (A flag beside the state:
// `Sends`, `LinesSent` and `Printed` of specs/Sending.antt speak of both, and after a failure the state is still what had been handed over.)
#[derive(Clone, Copy)]
pub struct Sent {
    kind: Kind,
    state: State,
    failed: bool,
}

pub fn has_failed(sent: Sent) -> bool
    ensures { result ≡ sent.failed }
{
    sent.failed
}

// One line on standard error: which program it is, and what went wrong. (No `Display` of `Kind`: it is written nowhere else.)
fn complain(kind: Kind, what: &[u8]) {
    match kind {
        Kind::Report => {
            io::write_all(2, b"report: ");
        }
        Kind::Certificate => {
            io::write_all(2, b"certificate: ");
        }
    }
    io::write_all(2, what);
}

// A text was read, and nothing has been handed over.
pub fn begin(kind: Kind, text: &[u8]) -> Sent
    ensures { AtFirstLine kind text.now result }
{
    let state = reader::begin(text);
    Sent {
        kind,
        state,
        failed: false,
    }
}

// A read failed, and nothing is handed over. The state is that of no bytes, for want of another.
pub fn unread(kind: Kind) -> Sent
    ensures { NothingSent kind result }
{
    complain(kind, b"the input could not be read\n");
    let state = reader::begin(b"");
    Sent {
        kind,
        state,
        failed: true,
    }
}

// The page that is next.
pub fn next_page(sent: Sent, buffer: &mut [u8]) -> Stepped
    ensures { Page (form_of sent.kind) sent.state result.state buffer.old buffer.new result.answer }
{
    let kind = sent.kind;
    let state = sent.state;
    pager::page(kind, state, buffer)
}

// Hands over the lines that are next. Where the write fails some of their bytes may have arrived, and nothing more can be handed over.
pub fn send(sent: Sent, after: State, lines: &[u8]) -> Sent
    requires { Sendable sent after lines.now }
    ensures { Sends sent after result }
{
    let kind = sent.kind;
    if io::write_all(1, lines) {
        return Sent {
            kind,
            state: after,
            failed: false,
        };
    }
    complain(kind, b"the output could not be written whole\n");
    Sent {
        failed: true,
        ..sent
    }
}
