//! Any domain serves: a computation written once over the interface, and a pile of products that a
//! domain from outside is part of.

#![tactic(auto)]

ghost use Rattle.std.specs.Prelude.{◌≡◌};
ghost use Rattle.piles.specs.Piles.{HoldsMaskedSums, even_below64, masked_sum};

use domain::Domain;
use parity::Parity;
use product::{Product, Standard};
use range::Range;
use tristate::Tristate;
use words::Operation;

/// A product of two products: parity with a range, over known bits with a range.
pub type Pile = Product<Product<Parity, Range>, Standard>;

/// What the bits of a sum that `mask` keeps can be.
pub fn masked_sum<D: Domain>(a: D, b: D, mask: u64) -> D
    ensures named { result ≡ masked_sum D.Domain a b mask }
    ensures sound { HoldsMaskedSums D.Domain a b mask result }
{
    let sum = D::of(Operation::Add, a, b);
    D::of(Operation::And, sum, D::only(mask))
}

/// The low six bits of the sum of two odd words, over the pile.
pub fn masked_sum_of_odd_words() -> Pile
    ensures { result ≡ even_below64 }
{
    let odd = Product {
        first: Product {
            first: Parity::Odd,
            second: Range::FULL,
        },
        second: Product {
            first: Tristate::FULL,
            second: Range::FULL,
        },
    };
    masked_sum(odd, odd, 63)
}
