// The figures of a book: how many edges are kept, freedom, dropped and the verdict. Each public call makes check 8 first.
ghost use Rattle.std.specs.Prelude.{◌≡◌, ◌≤◌};
ghost use Rattle.rule.specs.Sets.{◌<?◌, count as counted, at};
ghost use Rattle.rule.specs.Books.{design_of, kept_of, Sound};
ghost use Rattle.rule.specs.Figures.{freedom as freedom_of, dropped as dropped_of, verdict_on};
ghost use Rattle.rule.specs.Calls.{Freedom, Dropped, Judge};

use crate::sound_alone;
use rule::{Book, Reason, Verdict};

// How many of the first edges have a forest. (A count and the whole list, not a part of it: `counted .. count` is over the book's list, as the callers' clauses
// are.)
pub fn kept(count: u16, forests: &[u8; 512]) -> u16
    requires { count ≤ 512 }
    ensures { result ≡ counted (λ e. 0 <? at forests.now e) count }
{
    let mut found: u16 = 0;
    for forest in &forests[..usize::from(count)] {
        if *forest != 0 {
            found += 1;
        }
    }
    found
}

// The freedom of a sound book, and how many of its edges are implied. (`Sound` is a `requires` of both, of `list_groups` in crate groups and of the private `text_of`
// in crate writer, and no type: README names these crates for use, and a type would ask a caller to build one. Crate pager has one inside, `Source`.)
pub fn free_of(book: &Book) -> u16
    requires { Sound book.now }
    ensures { result ≡ freedom_of (design_of book.now) (kept_of book.now) }
{
    let a = u16::from(book.a);
    let b = u16::from(book.b);
    let n = u16::from(book.n);
    (a + b) * (n - 1) - kept(book.count, &book.forests)
}

pub fn implied_of(book: &Book) -> u16
    requires { Sound book.now }
    ensures { result ≡ dropped_of (design_of book.now) (kept_of book.now) }
{
    let count = book.count;
    count - kept(count, &book.forests)
}

pub fn judge(free: u16, implied: u16) -> Verdict
    ensures { result ≡ verdict_on free implied }
{
    if implied == 0 {
        if free == 0 {
            return Verdict::Tight;
        }
        return Verdict::Loose;
    }
    if free == 0 {
        return Verdict::OverTight;
    }
    Verdict::OverLoose
}

pub fn freedom(book: Book) -> Result<u16, Reason>
    ensures { Freedom book result }
{
    sound_alone(&book)?;
    Ok(free_of(&book))
}

pub fn dropped(book: Book) -> Result<u16, Reason>
    ensures { Dropped book result }
{
    sound_alone(&book)?;
    Ok(implied_of(&book))
}

pub fn verdict(book: Book) -> Result<Verdict, Reason>
    ensures { Judge book result }
{
    let free = freedom(book)?;
    Ok(judge(free, implied_of(&book)))
}
