// What is written to a `Print`, which no clause can say: the words, the numbers behind them, and that an error is handed back. The words of document 01 and of the
// files stdout of outcomes are what is expected.
use crate::bad;
use crate::say::{Numbers, Word, answer, done, found};
use rule::{Answer, Reason, Verdict};
use std::fmt::{self, Display, Write};
use std::io::{Error, ErrorKind, Result};

// What was written so far. Where there is no room, a write fails.
#[derive(Clone, Copy)]
struct Seen {
    bytes: [u8; 64],
    size: usize,
}

impl fmt::Write for Seen {
    fn write_str(&mut self, s: &str) -> fmt::Result {
        for x in s.as_bytes() {
            if 64 <= self.size {
                return Err(fmt::Error);
            }
            self.bytes[self.size] = *x;
            self.size += 1;
        }
        Ok(())
    }
}

// Takes one text alone: any other is an error.
#[derive(Clone, Copy)]
struct Only<'a>(&'a str);

impl Only<'_> {
    fn take<D: Display + Drop>(&self, value: D, end: &str) -> Result<()> {
        let mut seen = Seen {
            bytes: [0; 64],
            size: 0,
        };
        if write!(seen, "{value}{end}").is_ok()
            && seen.bytes.get(..seen.size) == Some(self.0.as_bytes())
        {
            return Ok(());
        }
        Err(Error::from(ErrorKind::InvalidData))
    }
}

impl Print for Only<'_> {
    fn print<D: Display + Drop>(&self, value: D) -> Result<()> {
        self.take(value, "")
    }

    fn println<D: Display + Drop>(&self, value: D) -> Result<()> {
        self.take(value, "\n")
    }

    fn write_all(&self, _bytes: &[u8]) -> Result<()> {
        Err(Error::from(ErrorKind::InvalidData))
    }
}

#[test]
fn a_line_not_understood(rt: HostRuntime) {
    assert!(rt; bad(&Only(" bad case, line 12\n"), 12).is_ok());
    assert!(rt; bad(&Only(" bad case, line 12\n"), 13).is_err());
}

#[test]
fn answers(rt: HostRuntime) {
    let list = [3u16, 14, 159];
    assert!(rt; answer(&Only(" kept"), Answer::Kept(2), &list).is_ok());
    assert!(rt; answer(&Only(" implied="), Answer::Implied(0), &list).is_ok());
    assert!(rt; answer(&Only(" implied=3,14"), Answer::Implied(2), &list).is_ok());
    assert!(rt; answer(&Only(" implied=3,14,159"), Answer::Implied(4), &list).is_ok());
    assert!(rt; answer(&Only(" refused=7"), Answer::Refused(Reason::Short), &list).is_ok());
    for said in [
        Answer::Kept(2),
        Answer::Implied(2),
        Answer::Refused(Reason::Short),
    ] {
        assert!(rt; answer(&Only(""), said, &list).is_err());
    }
}

#[test]
fn what_was_done(rt: HostRuntime) {
    assert!(rt; done(&Only("no text"), Ok(())).is_ok());
    assert!(rt; done(&Only(" refused=8,31"), Err(Reason::Unsound(31))).is_ok());
    assert!(rt; done(&Only(""), Err(Reason::Unsound(31))).is_err());
}

#[test]
fn what_was_found(rt: HostRuntime) {
    let leaders = [1u8, 1, 3];
    assert!(rt; found(&Only(" free=3"), "free", Ok(3u16)).is_ok());
    assert!(rt; found(&Only(" groups=1,1,3"), "groups", Ok(Numbers(&leaders))).is_ok());
    assert!(rt; found::<u16>(&Only(" free refused=8,0"), "free", Err(Reason::Unsound(0))).is_ok());
    assert!(rt; found(&Only(""), "free", Ok(3u16)).is_err());
    assert!(rt; found::<u16>(&Only(""), "free", Err(Reason::Unsound(0))).is_err());
    for (verdict, text) in [
        (Verdict::Tight, " verdict=tight"),
        (Verdict::Loose, " verdict=loose"),
        (Verdict::OverTight, " verdict=over-tight"),
        (Verdict::OverLoose, " verdict=over-loose"),
    ] {
        assert!(rt;
            found(&Only(text), "verdict", Ok(Word(verdict))).is_ok(),
            "{text}"
        );
    }
}
