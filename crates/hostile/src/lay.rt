// The lines of a text, as the file of cases has them: a bar, and then the bytes, with the LF; in front of the bar the number of times that they stand
// there, where that is not 1. A backslash and the LF stand for nothing, \\ for a backslash, \r for a CR, \t for a tab, \0 for a NUL, and \x with two
// digits from 0 to f for any byte.
ghost use Rattle.std.specs.Prelude.{◌≡◌, ◌≤◌, ◌<◌, IfSome};

const ROOM: usize = 24576;

// The text of a case so far. What there is no room for is left out. (Bytes and a size: fixed memory.)
#[derive(Clone, Copy)]
pub struct Text {
    bytes: [u8; ROOM],
    size: usize,
    ghost in_room: { size ≤ 24576 },
}

impl Text {
    pub fn new() -> Text {
        Text {
            bytes: [0; ROOM],
            size: 0,
        }
    }

    // The text of another case begins.
    pub fn clear(&mut self)
        ensures { self.new.size ≡ 0 }
    {
        self.size = 0;
    }

    fn push(&mut self, x: u8) {
        if self.size < ROOM {
            self.bytes[self.size] = x;
            self.size += 1;
        }
    }

    // The text as it is, unless it fills the room: then it was cut.
    pub fn whole(&self) -> Option<&[u8]> {
        if self.size < ROOM {
            Some(&self.bytes[..self.size])
        } else {
            None
        }
    }
}

// The digit from 0 to f that a byte is.
fn digit(x: u8) -> Option<u8>
    ensures { IfSome result (λ d. d < 16) }
{
    match x {
        b'0'..=b'9' => Some(x - b'0'),
        b'a'..=b'f' => Some(x - b'a' + 10),
        _ => None,
    }
}

// The byte that stands for itself or another behind a backslash.
fn escaped(x: u8) -> Option<u8> {
    match x {
        b'\\' => Some(b'\\'),
        b'r' => Some(b'\r'),
        b't' => Some(b'\t'),
        b'0' => Some(0),
        _ => None,
    }
}

// The bytes of a line, once; none where they were not understood. (`while`: a turn takes as many bytes as its piece has; no index is counted.)
fn once(bytes: &[u8], text: &mut Text) -> Option<()> {
    let mut rest = bytes;
    while !rest.is_empty() {
        rest = match rest {
            [b'\\', b'\n', after @ ..] => after,
            [b'\\', b'x', high, low, after @ ..] => {
                text.push(digit(*high)? * 16 + digit(*low)?);
                after
            }
            [b'\\', x, after @ ..] => {
                text.push(escaped(*x)?);
                after
            }
            [b'\\'] => return None,
            [x, after @ ..] => {
                text.push(*x);
                after
            }
            [] => rest,
        };
    }
    Some(())
}

fn repeat(times: usize, bytes: &[u8], text: &mut Text) -> Option<()> {
    let before = text.size;
    for _ in 0..times {
        if once(bytes, text).is_none() {
            text.size = before;
            return None;
        }
    }
    Some(())
}

// A line of the file, behind the text so far, which stays as it is where the line was not understood.
pub fn line(line: &[u8], text: &mut Text) -> Option<()> {
    let (times, rest) = match text::number(line, 5) {
        Some(read) => (read.value, line.get(read.next..)?),
        None => (1, line),
    };
    repeat(times, rest.strip_prefix(b"|")?, text)
}
