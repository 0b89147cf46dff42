ghost use Rattle.std.specs.Prelude.{◌≡◌, ◌^◌, ◌≤◌, min, IfSome};
ghost use Rattle.std.specs.Option.{option_map};
ghost use Rattle.lexer.specs.Numbers.{natural, number as number_in, in_cap, constant_in, size_in};

/// No limit of the language lies beyond this, so a number may have any count of digits.
const CAP: u128 = 1 << 64;

/// The number that one or more digits write, or the cap where that is larger.
fn natural_capped(digits: &[u8]) -> Option<u128>
    ensures value { result ≡ option_map (min (2 ^ 64)) (natural digits.now) }
    ensures bound { IfSome result (λ n. n ≤ 2 ^ 64) }
{
    if digits.is_empty() {
        return None;
    }
    let mut n: u128 = 0;
    // no `try_fold`: its closure could not know that the number so far is at most the cap
    for d in digits {
        match *d {
            b'0'..=b'9' => n = (n * 10 + u128::from(*d - b'0')).min(CAP),
            _ => return None,
        }
    }
    Some(n)
}

/// The number that digits, or a minus and digits, write, cut down to the cap on either side.
fn number(text: &[u8]) -> Option<i128>
    ensures { result ≡ option_map in_cap (number_in text.now) }
{
    match text {
        [b'-', digits @ ..] => natural_capped(digits).map(|n| -(n as i128)),
        _ => natural_capped(text).map(|n| n as i128),
    }
}

/// The word that a constant stands for: from -2^63 to 2^64 - 1, a negative one for itself plus 2^64.
pub(crate) fn constant_in(text: &[u8]) -> Option<u64>
    ensures { result ≡ constant_in text.now }
{
    // no `try_from`: a word is no `i64`, and what is below zero is told apart by its own bound
    match number(text) {
        Some(n) if n >= 0 && n < 1 << 64 => Some(n as u64),
        Some(n) if n < 0 && n >= -(1 << 63) => Some((n + (1 << 64)) as u64),
        _ => None,
    }
}

/// The size of a buffer: from 1 to 1024.
pub(crate) fn size_in(text: &[u8]) -> Option<usize>
    ensures { result ≡ size_in text.now }
{
    match number(text) {
        Some(n @ 1..=1024) => Some(n as usize),
        _ => None,
    }
}
