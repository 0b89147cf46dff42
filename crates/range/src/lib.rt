//! Ranges of words.
#![tactic(auto)]

ghost use Rattle.std.specs.Prelude.{◌≡◌, ◌-◌, ◌^◌};
ghost use Rattle.words.specs.Words.{length_of};
ghost use Rattle.range.specs.Ranges.{above, below, between, common, conjunction, difference, disjunction, least, most, no_more, on_from, only, product, reach, reading, single, span, sum, up_to, without, word};

use std::ops::{Add, BitAnd, BitOr, Mul, Sub};
use tristate::Tristate;

/// Any two words, which are the ends of the range, in either order.
#[derive(Clone, Copy, PartialEq, Eq, Debug)]
pub struct Range {
    pub low: u64,
    pub high: u64,
}

/// The range between two ends, where they are in order.
fn between(low: u64, high: u64) -> Option<Range>
    ensures { result ≡ between low high }
{
    (low <= high).then_some(Range { low, high })
}

/// Every bit up to the highest that is set.
fn filled(word: u64) -> u64
    ensures { result ≡ 2 ^ length_of word - 1 }
{
    u64::MAX.checked_shr(word.leading_zeros()).unwrap_or(0)
}

/// One word.
impl From<u64> for Range {
    ghost from_gives = { λ w r. r ≡ only w };

    fn from(word: u64) -> Range {
        Range {
            low: word,
            high: word,
        }
    }
}

impl Range {
    /// Every word.
    pub const FULL: Range = Range {
        low: 0,
        high: u64::MAX,
    };

    /// The least word held.
    pub fn least(self) -> u64
        ensures { result ≡ least self }
    {
        self.low.min(self.high)
    }

    /// The greatest word held.
    pub fn most(self) -> u64
        ensures { result ≡ most self }
    {
        self.low.max(self.high)
    }

    /// The same words, with the ends in order.
    pub fn read(self) -> Range
        ensures { result ≡ reading self }
    {
        Range {
            low: self.least(),
            high: self.most(),
        }
    }

    /// Is just one word held?
    pub fn is_single(self) -> bool
        ensures { result ≡ single self }
    {
        self.least() == self.most()
    }

    /// The word that is held, if it is just one.
    pub fn word(self) -> Option<u64>
        ensures { result ≡ word self }
    {
        self.is_single().then_some(self.least())
    }

    /// What a quotient by any word, or a shift to the right by any, can be.
    pub fn no_more(self) -> Range
        ensures { result ≡ no_more self }
    {
        let high = self.most();
        Range { low: 0, high }
    }

    /// What holds just the words that both hold.
    pub fn common(self, other: Range) -> Option<Range>
        ensures { result ≡ common self other }
    {
        let low = self.least().max(other.least());
        let high = self.most().min(other.most());
        between(low, high)
    }

    /// The words below `end`.
    pub fn below(self, end: u64) -> Option<Range>
        ensures { result ≡ below self end }
    {
        let last = end.checked_sub(1)?;
        between(self.least(), self.most().min(last))
    }

    /// The words up to `end`.
    pub fn up_to(self, end: u64) -> Option<Range>
        ensures { result ≡ up_to self end }
    {
        between(self.least(), self.most().min(end))
    }

    /// The words above `end`.
    pub fn above(self, end: u64) -> Option<Range>
        ensures { result ≡ above self end }
    {
        let next = end.checked_add(1)?;
        between(self.least().max(next), self.most())
    }

    /// The words from `end` on.
    pub fn on_from(self, end: u64) -> Option<Range>
        ensures { result ≡ on_from self end }
    {
        between(self.least().max(end), self.most())
    }

    /// All but `word`, where that is an end; else there is no range of just the others.
    pub fn without(self, word: u64) -> Option<Range>
        ensures { result ≡ without self word }
    {
        if self.least() == word {
            self.above(word)
        } else if self.most() == word {
            self.below(word)
        } else {
            Some(self.read())
        }
    }

    /// From the least word that `bits` holds to the greatest.
    // No `From`, since the words are not the same: those between that `bits` does not hold come in.
    pub fn reach(bits: Tristate) -> Range
        ensures { result ≡ reach bits }
    {
        Range {
            low: bits.known(),
            high: bits.most(),
        }
    }

    /// The bits that the two ends share, and so every word between them.
    // No `From`, since the words are not the same: those outside that share the bits come in.
    pub fn span(self) -> Tristate
        ensures { result ≡ span self }
    {
        let mask = filled(self.least() ^ self.most());
        Tristate {
            value: self.least() & !mask,
            mask,
        }
    }
}

impl Add for Range {
    type Output = Range;

    ghost add_gives = { λ a b r. r ≡ sum a b };

    fn add(self, other: Range) -> Range {
        match self.most().checked_add(other.most()) {
            Some(high) => Range {
                low: self.least() + other.least(),
                high,
            },
            None => Range::FULL,
        }
    }
}

impl Sub for Range {
    type Output = Range;

    ghost sub_gives = { λ a b r. r ≡ difference a b };

    fn sub(self, other: Range) -> Range {
        match self.least().checked_sub(other.most()) {
            Some(low) => Range {
                low,
                high: self.most() - other.least(),
            },
            None => Range::FULL,
        }
    }
}

impl Mul for Range {
    type Output = Range;

    ghost mul_gives = { λ a b r. r ≡ product a b };

    fn mul(self, other: Range) -> Range {
        match self.most().checked_mul(other.most()) {
            Some(most) => Range {
                low: self.least() * other.least(),
                high: most,
            },
            None => Range::FULL,
        }
    }
}

impl BitAnd for Range {
    type Output = Range;

    ghost bitand_gives = { λ a b r. r ≡ conjunction a b };

    fn bitand(self, other: Range) -> Range {
        Range {
            high: self.most().min(other.most()),
            ..Range::FULL
        }
    }
}

impl BitOr for Range {
    type Output = Range;

    ghost bitor_gives = { λ a b r. r ≡ disjunction a b };

    fn bitor(self, other: Range) -> Range {
        Range {
            low: self.least().max(other.least()),
            ..Range::FULL
        }
    }
}
