ghost use Rattle.std.specs.Prelude.{◌≡◌};
ghost use Rattle.domain.specs.Facts.{combined};

use range::Range;
use tristate::Tristate;

/// What is told of a word: known bits and a range, both of which hold it. Any four words are facts.
#[derive(Clone, Copy, PartialEq, Eq, Debug)]
pub struct Facts {
    pub bits: Tristate,
    pub range: Range,
}

impl Facts {
    /// What both tell of a word, kind by kind. Where no word has both, the first's stands.
    pub fn combine(self, other: Facts) -> Facts
        ensures { result ≡ combined self other }
    {
        Facts {
            bits: self.bits.common(other.bits).unwrap_or(self.bits.read()),
            range: self.range.common(other.range).unwrap_or(self.range.read()),
        }
    }
}
