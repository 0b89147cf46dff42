ghost use Rattle.std.specs.Prelude.{◌≡◌, ℕ, ◌^◌, ◌<◌, Bool, ◌⊎◌, Decides, Option};
ghost use Rattle.domain.specs.Facts.{Meets};
ghost use Rattle.words.specs.Sets.{HoldsIn};
ghost use Rattle.domain.specs.declared.facts.Facts.{Facts};
ghost use Rattle.words.specs.Widths.{bits_of};
ghost use Rattle.words.specs.Words.{Related, Sticks, Word, result_of};
ghost use Rattle.words.specs.declared.operation.Operation.{Operation};
ghost use Rattle.words.specs.declared.relation.Relation.{Relation};
ghost use Rattle.words.specs.declared.width.Width.{Width};

use super::facts::Facts;
use words::{Operation, Relation, Width};

/// A value stands for a set of words.
///
/// Each function answers the ghost member that names its answer, of its arguments alone: equal
/// questions have equal answers, and a contract above can state the answer of a domain that it does
/// not know. No function asks anything of its caller.
pub trait Domain: Copy {
    // the set of words that a value stands for
    ghost holds: { Self → ℕ → Type 0 };

    // the answer to each question
    ghost every: { Self };

    ghost single: { ℕ → Self };

    ghost under: { Width → Self };

    ghost member: { Self → ℕ → Bool };

    ghost applied: { Operation → Self → Self → Self };

    ghost joined: { Self → Self → Self };

    ghost narrowed: { Relation → Self → Self → Option Self };

    ghost told: { Self → Facts };

    ghost absorbed: { Self → Facts → Option Self };

    /// Every word.
    fn any() -> Self
        ensures { result ≡ every };

    /// One word, as tightly as the kind allows.
    fn only(word: u64) -> Self
        ensures { result ≡ single word };

    /// The words of so many low bits, as tightly as the kind allows.
    fn low(width: Width) -> Self
        ensures { result ≡ under width };

    /// Is this word held?
    fn has(self, word: u64) -> bool
        ensures { result ≡ member self word };

    /// What the operation can make of a word of `a` and one of `b`.
    fn of(operation: Operation, a: Self, b: Self) -> Self
        ensures { result ≡ applied operation a b };

    /// The words of either side.
    fn join(self, other: Self) -> Self
        ensures { result ≡ joined self other };

    /// The words that stand in the relation to some word of `other`.
    fn narrow(self, relation: Relation, other: Self) -> Option<Self>
        ensures { result ≡ narrowed relation self other };

    /// What is told of each word held.
    fn facts(self) -> Facts
        ensures { result ≡ told self };

    /// The words held that meet the facts.
    fn absorb(self, facts: Facts) -> Option<Self>
        ensures { result ≡ absorbed self facts };

    // `any` holds every word, `only w` holds w, and `low` every word of the width
    ghost any_holds: { (w : ℕ) → Word w → holds every w };

    ghost only_holds: { (w : ℕ) → Word w → holds (single w) w };

    ghost low_holds: { (k : Width) (w : ℕ) → w < 2 ^ bits_of k → holds (under k) w };

    // `has` says yes for just the words held
    ghost has_decides: { (a : Self) (w : ℕ) → Word w → Decides (member a w) (holds a w) };

    // `of` holds the machine's result for each word of a with each word of b that does not stick
    ghost of_holds: { (op : Operation) (a b : Self) (x y : ℕ) → Word x → Word y → holds a x → holds b y → (Sticks op y → ⊥) → holds (applied op a b) (result_of op x y) };

    // `join` holds every word of either side
    ghost join_holds: { (a b : Self) (w : ℕ) → Word w → holds a w ⊎ holds b w → holds (joined a b) w };

    // `narrow` holds each word of a that stands in the relation to some word of b, and is none only if there is no such word
    ghost narrow_holds: { (rel : Relation) (a b : Self) (x y : ℕ) → Word x → Word y → holds a x → holds b y → Related rel x y → HoldsIn holds (narrowed rel a b) x };

    // every word held meets `facts`
    ghost facts_met: { (a : Self) (w : ℕ) → Word w → holds a w → Meets (told a) w };

    // `absorb` holds each word of the value that meets the facts, and is none only if there is none; and it holds no word outside the value
    ghost absorb_holds: { (a : Self) (f : Facts) (w : ℕ) → Word w → holds a w → Meets f w → HoldsIn holds (absorbed a f) w };

    ghost absorb_within: { (a : Self) (f : Facts) (w : ℕ) → Word w → HoldsIn holds (absorbed a f) w → holds a w };
}
