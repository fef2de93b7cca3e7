// Files of cases, that programs read from standard input and run one by one. A line `case=` with a name begins a case, and the lines up to the next
// such line belong to it; what they say is the program's own. Empty lines, and lines that begin with #, say nothing. keys.rt reads the numbers behind a
// key, say.rt writes what a call answers.
#![tactic(auto)]

pub mod keys;
pub mod say;
#[cfg(test)]
mod tests;

ghost use Rattle.std.specs.Prelude.{◌≡◌, ◌≢◌, ◌∷◌, [], take, drop, length, IfSome, MatchOption};

use say::Output;
use std::fmt::{self, Write};
use std::io;

// Whether a line says nothing.
pub fn silent(line: &[u8]) -> bool {
    line.starts_with(b"#") || line.starts_with(b"\n")
}

// The name of the case that a line begins, if it begins one.
pub fn name(line: &[u8]) -> Option<&[u8]>
    ensures key { MatchOption result (take 5 line.now ≢ 99 ∷ 97 ∷ 115 ∷ 101 ∷ 61 ∷ []) (λ name. take 5 line.now ≡ 99 ∷ 97 ∷ 115 ∷ 101 ∷ 61 ∷ []) }
    ensures rest { IfSome result (λ name. name.now ≡ take (length name.now) (drop 5 line.now)) }
{
    let name = line.strip_prefix(b"case=")?;
    Some(name.strip_suffix(b"\n").unwrap_or(name))
}

// Writes that a line was not understood, so that a slip of the pen shows: its number in the file, from 1.
pub fn bad(rt: &impl Print, number: usize) -> io::Result<()> {
    println!(rt; " bad case, line {number}")
}

// The same, piece by piece.
pub fn bad_in_pieces(out: &mut Output, number: usize) -> fmt::Result {
    write!(out, " bad case, line {number}\n")
}
