// What a line below a case's name says, by the keys that the file stdin explains, each with its numbers.
use cases::keys;

// An edge as a line names it: nothing says that it is in range.
#[derive(Clone, Copy)]
pub struct Named {
    pub one: usize,
    pub other: usize,
    pub colour: usize,
}

fn edge(one: usize, other: usize, colour: usize) -> Named {
    Named { one, other, colour }
}

#[derive(Clone, Copy)]
pub enum Command {
    Open([usize; 3]),
    Offer(Named),
    Times(Named, usize),
    Pairs([usize; 2]),
    Head([usize; 5]),
    Put(usize, Named, usize),
    Ask(Named, usize),
    Lent(Named),
    Free,
    Close,
    Groups(usize),
}

// A line with no numbers.
fn alone(line: &[u8]) -> Option<Command> {
    match line {
        b"free" => Some(Command::Free),
        b"close" => Some(Command::Close),
        _ => None,
    }
}

// A key and the numbers behind it.
fn numbered(key: &[u8], numbers: &[usize]) -> Option<Command> {
    match (key, numbers) {
        (b"open", &[a, b, n]) => Some(Command::Open([a, b, n])),
        (b"red", &[u, v]) => Some(Command::Offer(edge(u, v, 1))),
        (b"black", &[u, v]) => Some(Command::Offer(edge(u, v, 2))),
        (b"times", &[u, v, colour, times]) => Some(Command::Times(edge(u, v, colour), times)),
        (b"pairs", &[reds, blacks]) => Some(Command::Pairs([reds, blacks])),
        (b"head", &[a, b, n, count, x]) => Some(Command::Head([a, b, n, count, x])),
        (b"edge", &[place, u, v, colour, forest]) => {
            Some(Command::Put(place, edge(u, v, colour), forest))
        }
        (b"ask", &[u, v, colour, places]) => Some(Command::Ask(edge(u, v, colour), places)),
        (b"lent", &[u, v, colour]) => Some(Command::Lent(edge(u, v, colour))),
        (b"groups", &[places]) => Some(Command::Groups(places)),
        _ => None,
    }
}

// The whole line, with its LF.
pub fn read(line: &[u8]) -> Option<Command> {
    let line = line.strip_suffix(b"\n")?;
    match line.iter().position(|x| *x == b'=') {
        Some(at) => numbered(&line[..at], keys::numbers(&line[at + 1..], &mut [0; 5])?),
        None => alone(line),
    }
}
