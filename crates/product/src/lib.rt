//! A product of two domains, which is again a domain.

#![tactic(auto)]

ghost use Rattle.std.specs.Prelude.{◌≡◌};
ghost use Rattle.product.specs.Products.{Both, Exactly, absorbed, applied, every, joined, kept, member, narrowed, reduced, single, told, under};
ghost use Rattle.product.specs.Laws as ProductLaws;
ghost use Rattle.product.specs.Laws.{combined-met};
ghost use Rattle.std.proofs.lemmas.Bool.Decides.{Decides-and};

use domain::{Domain, Facts};
use range::Range;
use tristate::Tristate;
use words::{Operation, Relation, Width};

/// The words that both parts hold.
#[derive(Clone, Copy, PartialEq, Eq, Debug)]
pub struct Product<A, B> {
    pub first: A,
    pub second: B,
}

/// Known bits and a range, each sharpened by the other.
pub type Standard = Product<Tristate, Range>;

impl<A: Domain, B: Domain> Product<A, B> {
    /// Each part sharpened by what the other tells: the second first, and then the first by the new second.
    pub fn reduce(self) -> Option<Product<A, B>>
        ensures value { result ≡ reduced A.Domain B.Domain self }
        ensures exact { Exactly A.Domain B.Domain self result }
    {
        let second = self.second.absorb(self.first.facts())?;
        let first = self.first.absorb(second.facts())?;
        Some(Product { first, second })
    }

    /// Reduced, where that leaves anything.
    fn kept(self) -> Product<A, B>
        ensures { result ≡ kept A.Domain B.Domain self }
    {
        self.reduce().unwrap_or(self)
    }
}

impl<A: Domain, B: Domain> Domain for Product<A, B> {
    ghost holds = { Both A.Domain B.Domain };

    ghost every = { every A.Domain B.Domain };

    ghost single = { single A.Domain B.Domain };

    ghost under = { under A.Domain B.Domain };

    ghost member = { member A.Domain B.Domain };

    ghost applied = { applied A.Domain B.Domain };

    ghost joined = { joined A.Domain B.Domain };

    ghost narrowed = { narrowed A.Domain B.Domain };

    ghost told = { told A.Domain B.Domain };

    ghost absorbed = { absorbed A.Domain B.Domain };

    ghost any_holds = { λ w hw. (A.any_holds w hw, B.any_holds w hw) };

    ghost only_holds = { λ w hw. (A.only_holds w hw, B.only_holds w hw) };

    ghost low_holds = { λ k w h. (A.low_holds k w h, B.low_holds k w h) };

    ghost has_decides = { λ p w hw.
        Decides-and (A.member p.first w) (B.member p.second w) (A.has_decides p.first w hw) (B.has_decides p.second w hw) };

    ghost of_holds = { ProductLaws.of_holds A.Domain.own B.Domain.own
        A.facts_met A.absorb_holds B.facts_met B.absorb_holds A.of_holds B.of_holds };

    ghost join_holds = { ProductLaws.join_holds A.Domain.own B.Domain.own
        A.facts_met A.absorb_holds B.facts_met B.absorb_holds A.join_holds B.join_holds };

    ghost narrow_holds = { ProductLaws.narrow_holds A.Domain.own B.Domain.own
        A.facts_met A.absorb_holds B.facts_met B.absorb_holds A.narrow_holds B.narrow_holds };

    ghost facts_met = { λ p w hw h.
        combined-met (A.told p.first) (B.told p.second) w (A.facts_met p.first w hw h.0) (B.facts_met p.second w hw h.1) };

    ghost absorb_holds = { ProductLaws.absorb_holds A.Domain.own B.Domain.own
        A.facts_met A.absorb_holds B.facts_met B.absorb_holds };

    ghost absorb_within = { ProductLaws.absorb_within A.Domain.own B.Domain.own
        A.absorb_within B.absorb_within };

    fn any() -> Self {
        Product {
            first: A::any(),
            second: B::any(),
        }
    }

    fn only(word: u64) -> Self {
        Product {
            first: A::only(word),
            second: B::only(word),
        }
    }

    fn low(width: Width) -> Self {
        Product {
            first: A::low(width),
            second: B::low(width),
        }
    }

    fn has(self, word: u64) -> bool {
        self.first.has(word) && self.second.has(word)
    }

    fn of(operation: Operation, a: Self, b: Self) -> Self {
        let first = A::of(operation, a.first, b.first);
        let second = B::of(operation, a.second, b.second);
        Product { first, second }.kept()
    }

    fn join(self, other: Self) -> Self {
        let first = self.first.join(other.first);
        let second = self.second.join(other.second);
        Product { first, second }.kept()
    }

    fn narrow(self, relation: Relation, other: Self) -> Option<Self> {
        let first = self.first.narrow(relation, other.first)?;
        let second = self.second.narrow(relation, other.second)?;
        Product { first, second }.reduce()
    }

    fn facts(self) -> Facts {
        self.first.facts().combine(self.second.facts())
    }

    fn absorb(self, facts: Facts) -> Option<Self> {
        let first = self.first.absorb(facts)?;
        let second = self.second.absorb(facts)?;
        Product { first, second }.reduce()
    }
}
