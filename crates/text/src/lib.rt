// Book text: reading a line, judging a text, and writing numbers. What they mean is said in specs/, in the words of document 01.
#![tactic(auto)]

mod edges;
pub mod put;

ghost use Rattle.std.specs.Prelude.{◌≡◌, ◌+◌, ◌≤◌, ◌<◌, length, get_or, drop};
ghost use Rattle.text.specs.Lines.{first_line};
ghost use Rattle.text.specs.Readings.{digit_of, taken, read_number, read_field, begins_at, read_number_line, read_ends, read_key, read_edge};
ghost use Rattle.text.specs.Judging.{within, read_numbered, read_step, lined};
ghost use Rattle.text.specs.EdgeLists.{lists_of, edge_in, EdgeEntered};
ghost use Rattle.text.specs.Judgements.{IsHead, Enters, Judges, LineRefused, LineBegins, Hands};

pub use edges::Edges;
use rule::{Edge, Reason};

// What reading a number finds: its value, and how many bytes were used or, at a place of a text, the place past it.
#[derive(Clone, Copy)]
pub struct Reading {
    pub value: usize,
    pub next: usize,
}

// What reading an edge line finds: its two bodies, its colour (1 red, 2 black) and the place past its LF.
#[derive(Clone, Copy)]
pub struct EdgeRead {
    pub one: usize,
    pub other: usize,
    pub colour: u8,
    pub next: usize,
}

// The key that opens an edge line: its colour and the place past it.
#[derive(Clone, Copy)]
pub struct Key {
    pub colour: u8,
    pub next: usize,
}

// An edge line in range: its edge and the place past it.
#[derive(Clone, Copy)]
pub struct Step {
    pub edge: Edge,
    pub next: usize,
}

// What the head of a sheet says: the profile, the number of bodies and the number of edges.
#[derive(Clone, Copy, Debug, PartialEq, Eq)]
pub struct Head {
    pub a: u8,
    pub b: u8,
    pub n: u8,
    pub edges: u16,
}

// Why a text is refused, and the number of the line at fault, counted from 1.
#[derive(Clone, Copy, Debug, PartialEq, Eq)]
pub struct Refusal {
    pub reason: Reason,
    pub line: usize,
}

// The answer of a line, a refusal with the number of that line.
fn at_line<T>(line: usize, answer: Result<T, Reason>) -> Result<T, Refusal>
    ensures { result ≡ lined line answer }
{
    answer.map_err(|reason| Refusal { reason, line })
}

impl Edges {
    // Edge i.
    pub fn edge(&self, i: usize) -> Edge
        requires { i < 512 }
        ensures { result ≡ edge_in (lists_of self.now) i }
    {
        Edge {
            one: self.ones[i],
            other: self.others[i],
            colour: self.colours[i],
        }
    }

    // An edge is entered in the lists at a place.
    fn enter(&mut self, i: usize, edge: Edge)
        requires { i < 512 }
        ensures { EdgeEntered i edge (lists_of self.old) (lists_of self.new) }
    {
        self.ones[i] = edge.one;
        self.others[i] = edge.other;
        self.colours[i] = edge.colour;
    }
}

// The byte at a place, or 0 past the end: no line has a byte 0. (No `Option`: `get_or` of specs/Readings.antt has 0 there, and every caller compares with another byte.)
fn byte(s: &[u8], i: usize) -> u8
    ensures { result ≡ get_or s.now i 0 }
{
    s.get(i).copied().unwrap_or(0)
}

// The digit that a byte is.
#[tactic(auto, using(crate::proofs::Picks::picks), unfolding(crate::specs::Readings::digit_of))]
fn digit_of(x: u8) -> Option<usize>
    ensures { result ≡ digit_of x }
{
    if x.is_ascii_digit() {
        Some(usize::from(x - b'0'))
    } else {
        None
    }
}

// What was taken: at least one digit is wanted.
#[tactic(auto, using(crate::proofs::Picks::picks), unfolding(crate::specs::Readings::taken))]
fn taken(value: usize, used: usize) -> Option<Reading>
    ensures { result ≡ taken value used }
{
    if used == 0 {
        None
    } else {
        Some(Reading { value, next: used })
    }
}

// The number of at most `most` digits that `s` begins with. After a leading zero no digit belongs to it.
pub fn number(s: &[u8], most: usize) -> Option<Reading>
    requires { most ≤ 5 }
    ensures { result ≡ read_number most s.now }
{
    if byte(s, 0) == b'0' {
        return Some(Reading { value: 0, next: 1 });
    }
    let mut value = 0;
    for used in 0..most {
        let Some(d) = digit_of(byte(s, used)) else {
            return taken(value, used);
        };
        value = 10 * value + d;
    }
    taken(value, most)
}

// The number of one to `most` digits at a place of a text, with the byte `stop` after it. (A text and a place, here and below, and no part of the text: so say
// `read_field`, `read_step` and the others of specs/Readings.antt, and `fault` needs the place.)
#[tactic(auto, using(crate::proofs::Fields::fields))]
fn field(text: &[u8], at: usize, stop: u8, most: usize) -> Option<Reading>
    requires { (1 ≤ most) × (most ≤ 5) }
    ensures { result ≡ read_field most stop text.now at }
{
    if text.len() < at {
        return None;
    }
    let found = number(&text[at..], most)?;
    let end = at + found.next;
    if byte(text, end) == stop {
        Some(Reading {
            value: found.value,
            next: end + 1,
        })
    } else {
        None
    }
}

// Whether `key` stands at a place of a text.
fn begins_at(text: &[u8], at: usize, key: &[u8]) -> bool
    ensures { result ≡ begins_at key.now text.now at }
{
    if text.len() < at {
        return false;
    }
    text[at..].starts_with(key)
}

// The line of a key and one number at a place of a text.
#[tactic(auto, using(crate::proofs::LineReads::number_lines))]
fn number_line(text: &[u8], at: usize, key: &[u8]) -> Option<Reading>
    ensures { result ≡ read_number_line key.now text.now at }
{
    if begins_at(text, at, key) {
        field(text, at + key.len(), b'\n', 3)
    } else {
        None
    }
}

// The two numbers of an edge line, past its key.
#[tactic(auto, using(crate::proofs::EdgeReads::two_ends))]
fn ends(text: &[u8], key: Key) -> Option<EdgeRead>
    ensures { result ≡ read_ends text.now key.next key.colour }
{
    let first = field(text, key.next, b',', 3)?;
    let second = field(text, first.next, b'\n', 3)?;
    Some(EdgeRead {
        one: first.value,
        other: second.value,
        colour: key.colour,
        next: second.next,
    })
}

// The key at a place of a text.
#[tactic(auto, using(crate::proofs::EdgeReads::keys))]
fn key_at(text: &[u8], at: usize) -> Option<Key>
    ensures { result ≡ read_key text.now at }
{
    if begins_at(text, at, b"red=") {
        return Some(Key {
            colour: 1,
            next: at + 4,
        });
    }
    if begins_at(text, at, b"black=") {
        return Some(Key {
            colour: 2,
            next: at + 6,
        });
    }
    None
}

// The edge line at a place of a text.
#[tactic(auto, using(crate::proofs::EdgeReads::edges))]
fn edge_at(text: &[u8], at: usize) -> Option<EdgeRead>
    ensures { result ≡ read_edge text.now at }
{
    ends(text, key_at(text, at)?)
}

// Whether x is one of low to high.
#[tactic(auto, using(crate::proofs::Ranges::within_both))]
fn within(low: usize, high: usize, x: usize) -> bool
    ensures { result ≡ within low high x }
{
    (low..=high).contains(&x)
}

// The number line of a key at a place, its number one of low to high.
#[tactic(auto, using(crate::proofs::Ranges::numbered))]
fn number_in(
    text: &[u8],
    at: usize,
    key: &[u8],
    low: usize,
    high: usize,
    why: Reason,
) -> Result<Reading, Reason>
    ensures { result ≡ read_numbered key.now low high why text.now at }
{
    let found = number_line(text, at, key).ok_or(Reason::Line)?;
    if within(low, high, found.value) {
        Ok(found)
    } else {
        Err(why)
    }
}

// The edge line at a place, between two different bodies of 1 to n. An edge from a body to itself is refused for the body first.
#[tactic(auto, using(crate::proofs::Ranges::steps))]
fn edge_in(text: &[u8], at: usize, n: u8) -> Result<Step, Reason>
    ensures { result ≡ read_step n text.now at }
{
    let found = edge_at(text, at).ok_or(Reason::Line)?;
    let bodies = usize::from(n);
    if !within(1, bodies, found.one) || !within(1, bodies, found.other) {
        return Err(Reason::Body);
    }
    if found.one == found.other {
        return Err(Reason::SameBody);
    }
    // `as`, here and in `find`: the check shows that no bits are lost, and `try_from` would add a refusal that never comes.
    Ok(Step {
        edge: Edge {
            one: found.one as u8,
            other: found.other as u8,
            colour: found.colour,
        },
        next: found.next,
    })
}

// The edge lines after a head, each entered in the lists, and that nothing follows them. (Inlined by a hint: apart from `find` it keeps the head where the lines
// need the room, and a text takes up to a third longer.)
#[inline(always)]
fn walk(text: &[u8], head: Head, first: usize, edges: &mut Edges) -> Result<Head, Refusal>
    requires { IsHead text.now head first }
    ensures { Enters text.now (lists_of edges.old) (lists_of edges.new) result }
{
    let last = usize::from(head.edges);
    let mut at = first;
    for i in 0..last {
        let step = at_line(i + 5, edge_in(text, at, head.n))?;
        edges.enter(i, step.edge);
        at = step.next;
    }
    if at < text.len() {
        return Err(Refusal {
            reason: Reason::Line,
            line: last + 5,
        });
    }
    Ok(head)
}

// What a text is, and the edges of a sheet in the lists, in front of what these held. Each line is read once.
pub fn find(text: &[u8], edges: &mut Edges) -> Result<Head, Refusal>
    ensures { Enters text.now (lists_of edges.old) (lists_of edges.new) result }
{
    let a = at_line(1, number_in(text, 0, b"a=", 1, 3, Reason::Profile))?;
    let b = at_line(2, number_in(text, a.next, b"b=", 1, 3, Reason::Profile))?;
    let n = at_line(
        3,
        number_in(text, b.next, b"bodies=", 1, 64, Reason::Bodies),
    )?;
    let m = at_line(4, number_in(text, n.next, b"edges=", 0, 512, Reason::Full))?;
    let head = Head {
        a: a.value as u8,
        b: b.value as u8,
        n: n.value as u8,
        edges: m.value as u16,
    };
    walk(text, head, m.next, edges)
}

// What a text is, for every list of bytes.
pub fn judge(text: &[u8]) -> Result<Head, Refusal>
    ensures { Judges text.now result }
{
    find(text, &mut Edges::new())
}

// Where the line that begins at a place ends: at its LF, or at the text's end.
fn line_end(text: &[u8], at: usize) -> usize
    requires { at ≤ length text.now }
    ensures { result ≡ at + length (first_line (drop at text.now)) }
{
    match text[at..].iter().position(|x| *x == b'\n') {
        Some(size) => at + size,
        None => text.len(),
    }
}

// Where the line at fault begins, by its number.
fn line_start(text: &[u8], line: usize) -> usize
    requires { LineRefused text.now line }
    ensures { LineBegins text.now line result }
{
    let mut at = 0;
    for _ in 1..line {
        at = line_end(text, at) + 1;
    }
    at
}

// The line at fault, without its LF, as a part of the text; for a missing line, and where nothing is refused, the empty part at the
// text's end.
pub fn fault(text: &[u8]) -> &[u8]
    ensures { Hands text.entry result }
{
    let Err(refusal) = judge(text) else {
        let end = text.len();
        return &text[end..];
    };
    let at = line_start(text, refusal.line);
    let end = line_end(text, at);
    &text[at..end]
}
