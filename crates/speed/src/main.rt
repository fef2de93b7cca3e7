// For the benchmark: builds the book of a text again and again. Standard input has a letter, four digits and a LF, and then a book text: after k
// the text is read so many times, with the tables kept between offers; after o it is read once, and then so many times every edge of the book
// goes through the public offer to a new one, which scans that first; after t the text is so many times judged and its edges entered in lists,
// and none is offered. What is printed is a sum over the books, so that the work cannot be left out.
#![tactic(auto)]

ghost use Rattle.std.specs.Prelude.{◌≤◌};

use rule::Book;
use text::Edges;

// A byte that is no digit counts as 0. (No `Option`: each of the four callers would take 0 for `None`, which is no plainer.)
fn digit(x: u8) -> usize
    ensures { result ≤ 9 }
{
    match x {
        b'0'..=b'9' => usize::from(x - b'0'),
        _ => 0,
    }
}

// Something of a book: the forests of two edges.
fn figure(book: &Book) -> u16
    ensures { result ≤ 2805 }
{
    u16::from(book.forests[0]) * 10 + u16::from(book.forests[200])
}

// The edges of a book, each by a public offer to another.
fn offered(read: &Book) -> Book {
    let mut book = book::open(
        usize::from(read.a),
        usize::from(read.b),
        usize::from(read.n),
    )
    .book;
    let mut list = [0u16; 378];
    for i in 0..512 {
        let edge = read.edge(i);
        let one = usize::from(edge.one);
        let other = usize::from(edge.other);
        book = step::offer(book, one, other, usize::from(edge.colour), &mut list).book;
    }
    book
}

fn read(text: &[u8]) -> Book {
    reader::read(text).book
}

// What reading does with a text, all but the offers: it is judged, and its edges are entered in lists.
fn look(text: &[u8]) -> u16
    ensures { result ≤ 2805 }
{
    let mut edges = Edges::new();
    match text::find(text, &mut edges) {
        Ok(_) => {
            u16::from(edges.ones[0]) * 9
                + u16::from(edges.others[200])
                + u16::from(edges.colours[100])
        }
        Err(_) => 0,
    }
}

// The sum of what so many calls answer.
fn sum<F: Fn() -> u16>(times: usize, call: F) -> usize
    requires { F.IsAlwaysCallable call }
{
    let mut sum = 0;
    for _ in 0..times {
        sum = (sum + usize::from(call())) % 1000003;
    }
    sum
}

// (A match on the letter of the input and no enum: it is read once, here.)
fn repeat(what: u8, times: usize, text: &[u8]) -> usize {
    match what {
        b'k' => sum(times, || figure(&read(text))),
        b'o' => {
            let book = read(text);
            sum(times, || figure(&offered(&book)))
        }
        _ => sum(times, || look(text)),
    }
}

// A write that fails is not told, as it never was.
fn main(rt: HostRuntime) {
    let mut space = [0u8; 8198];
    let n = io::read_full(0, &mut space);
    let [what, a, b, c, d, _, text @ ..] = &space[..n] else {
        return;
    };
    let times = digit(*a) * 1000 + digit(*b) * 100 + digit(*c) * 10 + digit(*d);
    let sum = repeat(*what, times, text);
    // (Two writes, as ever: the second is tried where the first fails.)
    let _ = print!(rt; "{sum}");
    let _ = println!(rt; "");
}
