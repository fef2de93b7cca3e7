// Words of 64 bits, bit by bit.
#![tactic(auto)]

ghost use Rattle.std.specs.Prelude.{◌≡◌, ℕ, ◌<◌, ◌^◌};
ghost use Rattle.rule.specs.Sets.{Is};
ghost use Rattle.words.specs.Bits.{bit, Lowest, Without};

// The word with one bit.
pub fn one(t: usize) -> u64
    requires { t < 64 }
    ensures { result ≡ 2 ^ t }
{
    1u64 << t
}

// The word has bit t.
pub fn has(word: u64, t: usize) -> bool
    requires { t < 64 }
    ensures { result ≡ bit word t }
{
    (word >> t) % 2 == 1
}

// The lowest bit of a word that is not 0.
// (`as`: the library counts zeros in a u32, and usize has no `From<u32>`.)
pub fn lowest(word: u64) -> usize
    requires { word ≡ 0 → ⊥ }
    ensures { Lowest word result }
{
    word.trailing_zeros() as usize
}

// The word without a bit that it has.
pub fn without(word: u64, t: usize) -> u64
    requires t_bound { t < 64 }
    requires is { Is (bit word t) }
    ensures { Without word t result }
{
    word ^ one(t)
}

// The bits of a word that have not come yet: as an iterator they come one by one, lowest first.
#[derive(Clone, Copy)]
pub struct SetBits {
    pub left: u64,
}

// The bits of a word.
pub fn set_bits(word: u64) -> SetBits
    ensures { result.left ≡ word }
{
    SetBits { left: word }
}

impl Iterator for SetBits {
    type Item = usize;

    ghost use Rattle.words.specs.Turns.{NextBit};
    ghost use Rattle.std.specs.Iterator.{at_most};

    ghost next_gives = { NextBit };

    ghost remaining = { λ s. at_most s.left };

    fn next(&mut self) -> Option<usize> {
        if self.left == 0 {
            return None;
        }
        let t = lowest(self.left);
        self.left = without(self.left, t);
        Some(t)
    }
}
