use super::tables::{
    Absorbed, Applied, BITS, BITS_ABSORBED, BITS_HELD, BITS_NARROWED, ENDS, Held, Narrowed, RANGES,
    RANGES_ABSORBED, RANGES_HELD, RANGES_NARROWED,
};
use domain::Domain;
use product::{Product, Standard};
use range::Range;
use std::fmt::Debug;
use std::process::Abort;
use tristate::Tristate;
use words::{Relation, Width};

fn check_applied<D: Domain + PartialEq + Debug>(rt: &impl Abort, rows: &[Applied<D>]) {
    for row in rows {
        assert_eq!(rt; D::of(row.operation, row.a, row.b), row.answer);
    }
}

fn check_narrowed<D: Domain + PartialEq + Debug>(rt: &impl Abort, rows: &[Narrowed<D>]) {
    for row in rows {
        assert_eq!(rt; row.a.narrow(row.relation, row.b), row.answer);
    }
}

fn check_absorbed<D: Domain + PartialEq + Debug>(rt: &impl Abort, rows: &[Absorbed<D>]) {
    for row in rows {
        assert_eq!(rt; row.a.absorb(row.facts), row.answer);
    }
}

fn check_held<D: Domain>(rt: &impl Abort, rows: &[Held<D>]) {
    for row in rows {
        assert_eq!(rt; row.a.has(row.word), row.answer);
    }
}

#[test]
fn operations_on_known_bits(rt: HostRuntime) {
    check_applied(&rt, &BITS);
}

#[test]
fn operations_on_ranges(rt: HostRuntime) {
    check_applied(&rt, &RANGES);
}

#[test]
fn narrowing_known_bits(rt: HostRuntime) {
    check_narrowed(&rt, &BITS_NARROWED);
}

#[test]
fn narrowing_ranges(rt: HostRuntime) {
    check_narrowed(&rt, &RANGES_NARROWED);
}

#[test]
fn absorbing_into_known_bits(rt: HostRuntime) {
    check_absorbed(&rt, &BITS_ABSORBED);
}

#[test]
fn absorbing_into_ranges(rt: HostRuntime) {
    check_absorbed(&rt, &RANGES_ABSORBED);
}

#[test]
fn words_of_known_bits(rt: HostRuntime) {
    check_held(&rt, &BITS_HELD);
}

#[test]
fn words_of_ranges(rt: HostRuntime) {
    check_held(&rt, &RANGES_HELD);
}

/// A word that is one of the ends, in a domain that tells every two words apart.
fn at_ends<D: Domain>(rt: &impl Abort, word: u64, other: u64) {
    let one = D::only(word);
    let two = D::only(other);
    assert!(rt; D::any().has(word));
    assert_eq!(rt; one.has(other), word == other);
    assert_eq!(rt; one.narrow(Relation::Equal, two).is_some(), word == other);
    assert_eq!(rt; one.narrow(Relation::Unequal, two).is_some(), word != other);
    assert!(rt; one.join(two).has(word));
    assert!(rt; one.join(two).has(other));
    assert_eq!(rt; one.absorb(two.facts()).is_some(), word == other);
}

/// The same of the orders, which known bits alone do not tell.
fn ordered_at_ends<D: Domain>(rt: &impl Abort, word: u64, other: u64) {
    let one = D::only(word);
    let two = D::only(other);
    assert_eq!(rt; one.narrow(Relation::Less, two).is_some(), word < other);
    assert_eq!(rt;
        one.narrow(Relation::LessOrEqual, two).is_some(),
        word <= other
    );
    assert_eq!(rt; one.narrow(Relation::Greater, two).is_some(), word > other);
    assert_eq!(rt;
        one.narrow(Relation::GreaterOrEqual, two).is_some(),
        word >= other
    );
}

#[test]
fn every_domain_at_the_ends(rt: HostRuntime) {
    for word in ENDS {
        for other in ENDS {
            at_ends::<Tristate>(&rt, word, other);
            at_ends::<Range>(&rt, word, other);
            at_ends::<Standard>(&rt, word, other);
            ordered_at_ends::<Range>(&rt, word, other);
            ordered_at_ends::<Standard>(&rt, word, other);
        }
    }
}

#[test]
fn a_product_is_sharpened_both_ways(rt: HostRuntime) {
    let loose = Product {
        first: Tristate { value: 8, mask: 7 },
        second: Range { low: 0, high: 11 },
    };
    let sharp = Product {
        first: Tristate { value: 8, mask: 3 },
        second: Range { low: 8, high: 11 },
    };
    assert_eq!(rt; loose.reduce(), Some(sharp));
    let none = Product {
        first: Tristate { value: 8, mask: 0 },
        second: Range { low: 0, high: 7 },
    };
    assert_eq!(rt; none.reduce(), None);
    assert_eq!(rt; none.join(none), none);
}

#[test]
fn low_words(rt: HostRuntime) {
    let byte = Standard::low(Width::W8);
    let first = Tristate {
        value: 0,
        mask: 255,
    };
    let second = Range { low: 0, high: 255 };
    assert_eq!(rt; byte, Product { first, second });
    assert!(rt; byte.has(255));
    assert!(rt; !byte.has(256));
    assert!(rt; Standard::low(Width::W64).has(u64::MAX));
}
