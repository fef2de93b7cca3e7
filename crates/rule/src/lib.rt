// The types that the calls of the step share. What they mean is said in specs/, in the words of document 01.
#![tactic(auto)]

ghost use Rattle.std.specs.Prelude.{◌≡◌, ◌+◌, ◌<◌};
ghost use Rattle.rule.specs.Books.{edge_of};
ghost use Rattle.rule.specs.Reasons.{number_of};

// An edge as it is given: its two bodies, and its colour (1 red, 2 black).
// (The colour stays a number: a book is taken with any number there, and `EdgeRule` and reason 5 speak of those that are no colour.)
#[derive(Clone, Copy)]
pub struct Edge {
    pub one: u8,
    pub other: u8,
    pub colour: u8,
}

// A book of offered edges. Edge e stands at index e - 1 of the four arrays: its two bodies as they were given, its colour
// (1 red, 2 black) and its forest (1 to a + b where it is kept, 0 where it is implied).
// (Four arrays, 512 places and a count: memory is fixed, and `new_book` and `Adds` of specs/Calls.antt name each array.)
#[derive(Clone, Copy)]
pub struct Book {
    pub a: u8,
    pub b: u8,
    pub n: u8,
    pub count: u16,
    pub ones: [u8; 512],
    pub others: [u8; 512],
    pub colours: [u8; 512],
    pub forests: [u8; 512],
}

impl Book {
    // The edge at index i of the arrays.
    pub fn edge(&self, i: usize) -> Edge
        requires { i < 512 }
        ensures { result ≡ edge_of self.now (i + 1) }
    {
        Edge {
            one: self.ones[i],
            other: self.others[i],
            colour: self.colours[i],
        }
    }
}

// Why a call says no. `number_of` of specs/Reasons.antt gives each case its number in the table of document 01.
#[derive(Clone, Copy, Debug, PartialEq, Eq)]
pub enum Reason {
    Profile,
    Bodies,
    Body,
    SameBody,
    Colour,
    Full,
    Short,
    Unsound(u16),
    Line,
}

// The number of a reason in the table of document 01.
impl From<Reason> for usize {
    ghost from_gives = { λ reason number. number ≡ number_of reason };

    fn from(reason: Reason) -> usize {
        match reason {
            Reason::Profile => 1,
            Reason::Bodies => 2,
            Reason::Body => 3,
            Reason::SameBody => 4,
            Reason::Colour => 5,
            Reason::Full => 6,
            Reason::Short => 7,
            Reason::Unsound(_) => 8,
            Reason::Line => 9,
        }
    }
}

// What an offer and a question answer: kept, with how many earlier edges moved to another forest; implied, with the length
// of the circuit; or refused.
// (An enum of its own and no `Result`: docs/DECISIONS.md, "The forms that 01 names", has it so.)
#[derive(Clone, Copy, Debug, PartialEq, Eq)]
pub enum Answer {
    Kept(u16),
    Implied(u16),
    Refused(Reason),
}

// The four verdicts on a book.
#[derive(Clone, Copy, Debug, PartialEq, Eq)]
pub enum Verdict {
    Tight,
    Loose,
    OverTight,
    OverLoose,
}
