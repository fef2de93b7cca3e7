// What lines are written from: a sound book with the tables of its forests. And the place of one line of it.
ghost use Rattle.std.specs.Prelude.{◌≡◌, ◌<◌, get_or};
ghost use Rattle.rule.specs.Books.{Sound};
ghost use Rattle.book.specs.Checks.{HoldsForests};
ghost use Rattle.pager.specs.Lent.{Tally};
ghost use Rattle.pager.specs.Once.{Sound-prop, HoldsForests-prop};

use rule::Book;
use tables::Tables;

// A sound book, and the tables that hold its forests.
#[derive(Clone, Copy)]
pub struct Source<'a> {
    pub book: &'a Book,
    pub tables: &'a Tables,
    pub ghost sound: { Sound book.now } by { Sound-prop book.now },
    pub ghost held: { HoldsForests book.now tables.now } by { HoldsForests-prop book.now tables.now },
}

// The place of a line: its number, and how many of as many edges are kept.
#[derive(Clone, Copy)]
pub struct Place<'a> {
    pub source: Source<'a>,
    pub line: u16,
    pub kept: u16,
    pub ghost tally: { Tally source.book.now line kept },
}

impl Source<'_> {
    // The forest of the edge after i others, or 0 where it is implied. (0 and no `None`: a forest of 0 is none in `forest_of` of crate rule.)
    pub fn forest_at(self, i: u16) -> u8
        requires { i < self.book.now.count }
        ensures { result ≡ get_or self.entry.book.now.forests i 0 }
    {
        self.book.forests[usize::from(i)]
    }
}
