//! What a scalar's text stands for (YAML 1.2.2, section 10.3.2).

ghost use Rattle.std.specs.Prelude.{◌≡◌, ◌≤◌, ◌^◌, IfSome, length, pos, neg_ℤ};
ghost use Rattle.yaml_small.specs.Schema as spec;

use crate::cursor::begins;

/// What a scalar's text stands for, whatever its style.
#[derive(Clone, Copy, Debug, PartialEq, Eq)]
pub enum Resolved {
    /// Decimal digits behind an optional sign, with one more plus in front of that or not; or behind `0x`
    /// hexadecimal, behind `0o` octal digits and their sign.
    Integer(i64),
    /// `true` or `false`.
    Boolean(bool),
    /// `~` or `null`.
    Null,
    /// The form of a real number, which has no value here.
    RealForm,
    /// Any other text, also the empty one.
    Text,
}

/// What a scalar's text stands for. It takes no memory.
pub fn resolve(text: &str) -> Resolved
    ensures { result ≡ spec.resolved text.now }
{
    let bytes = text.as_bytes();
    match integer(bytes) {
        Some(number) => Resolved::Integer(number),
        None => resolved_text(bytes),
    }
}

/// What a text stands for that is no integer.
fn resolved_text(text: &[u8]) -> Resolved
    ensures { result ≡ spec.resolved_text text.now }
{
    if text == b"~".as_slice() || text == b"null".as_slice() {
        return Resolved::Null;
    }
    if text == b"true".as_slice() {
        return Resolved::Boolean(true);
    }
    if text == b"false".as_slice() {
        return Resolved::Boolean(false);
    }
    if is_real(text) {
        Resolved::RealForm
    } else {
        Resolved::Text
    }
}

/// The integer that a text writes.
#[tactic(auto, unfolding(crate::specs::Schema::integer))]
fn integer(text: &[u8]) -> Option<i64>
    ensures { result ≡ spec.integer text.now }
{
    if begins(b'0', text) {
        if begins(b'x', &text[1..]) {
            return signed(16, &text[2..]);
        }
        if begins(b'o', &text[1..]) {
            return signed(8, &text[2..]);
        }
    }
    if begins(b'+', text) {
        return signed(10, &text[1..]);
    }
    signed(10, text)
}

/// The integer that an optional sign and digits write, where it has 64 bits.
#[tactic(auto, unfolding(crate::specs::Schema::signed))]
fn signed(radix: u32, text: &[u8]) -> Option<i64>
    requires at_least { 2 ≤ radix }
    requires at_most { radix ≤ 16 }
    ensures { result ≡ spec.signed radix text.now }
{
    if begins(b'-', text) {
        return match number(radix, 1 << 63, &text[1..]) {
            Some(size) => Some(negative(size)),
            None => None,
        };
    }
    let digits = if begins(b'+', text) { &text[1..] } else { text };
    match number(radix, (1 << 63) - 1, digits) {
        Some(size) => Some(size as i64),
        None => None,
    }
}

/// The negative number of a size.
fn negative(size: u64) -> i64
    requires { size ≤ 2 ^ 63 }
    ensures { result ≡ neg_ℤ (pos size) }
{
    if size == 1 << 63 {
        return i64::MIN;
    }
    -(size as i64)
}

/// The number that digits write, one or more, up to a limit.
fn number(radix: u32, limit: u64, digits: &[u8]) -> Option<u64>
    requires at_least { 2 ≤ radix }
    requires at_most { radix ≤ 16 }
    requires limit { limit ≤ 2 ^ 63 }
    ensures number { result ≡ spec.number radix limit digits.now }
    ensures within { IfSome result (λ n. n ≤ limit) }
{
    if digits.is_empty() {
        return None;
    }
    let mut value = 0u64;
    for byte in digits {
        let Some(digit) = char::from(*byte).to_digit(radix) else {
            return None;
        };
        let next = u128::from(value) * u128::from(radix) + u128::from(digit);
        if next > u128::from(limit) {
            return None;
        }
        value = next as u64;
    }
    Some(value)
}

/// A text without one sign in front.
fn without_sign(text: &[u8]) -> &[u8]
    ensures { result.now ≡ spec.without_sign text.now }
{
    if begins(b'-', text) || begins(b'+', text) {
        &text[1..]
    } else {
        text
    }
}

/// How many decimal digits a text begins with.
fn decimals(text: &[u8]) -> usize
    ensures count { result ≡ spec.decimals text.now }
    ensures within { result ≤ length text.now }
{
    text.iter()
        .take_while(|byte| b'0' <= **byte && **byte <= b'9')
        .count()
}

/// Whether a text is nothing or an exponent.
fn is_exponent(text: &[u8]) -> bool
    ensures { result ≡ spec.is_exponent text.now }
{
    match text {
        [] => true,
        [first, rest @ ..] => {
            let digits = without_sign(rest);
            (*first == b'e' || *first == b'E')
                && (0 < digits.len() && decimals(digits) == digits.len())
        }
    }
}

/// Whether a text is digits, with `whole` of them in front of a point, and an optional exponent.
fn is_fraction(whole: usize, rest: &[u8]) -> bool
    ensures { result ≡ spec.is_fraction whole rest.now }
{
    let count = decimals(rest);
    (0 < whole || 0 < count) && is_exponent(&rest[count..])
}

/// Whether a text is digits with at most one point, and an optional exponent.
#[tactic(auto, unfolding(crate::specs::Schema::is_number))]
fn is_number(text: &[u8]) -> bool
    ensures { result ≡ spec.is_number text.now }
{
    let count = decimals(text);
    let rest = &text[count..];
    if begins(b'.', rest) {
        return is_fraction(count, &rest[1..]);
    }
    0 < count && is_exponent(rest)
}

/// Whether a text is `.inf`, `.Inf` or `.INF`.
fn is_infinity(text: &[u8]) -> bool
    ensures { result ≡ spec.is_infinity text.now }
{
    text == b".inf".as_slice() || text == b".Inf".as_slice() || text == b".INF".as_slice()
}

/// Whether a text is `.nan`, `.NaN` or `.NAN`.
fn is_no_number(text: &[u8]) -> bool
    ensures { result ≡ spec.is_no_number text.now }
{
    text == b".nan".as_slice() || text == b".NaN".as_slice() || text == b".NAN".as_slice()
}

/// Whether a text has the form of a real number.
fn is_real(text: &[u8]) -> bool
    ensures { result ≡ spec.is_real text.now }
{
    let size = without_sign(text);
    is_number(size) || is_infinity(size) || is_no_number(text)
}
