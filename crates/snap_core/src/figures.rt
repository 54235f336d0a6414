//! Numbers and addresses, as texts spell them in decimal digits. Leading zeros are read.

ghost use Rattle.std.specs.Prelude.{◌≡◌, ◌≤◌, ◌+◌, ◌∷◌, IfSome, MatchOption};
ghost use Rattle.snap_core.specs.AddressSteps.{BeginsNoDigit, BeginsNoDot, IsNoOctet, IsNoPart, IsOctetFront, IsPartFront};
ghost use Rattle.snap_core.specs.Figures.{address_of, number_of, number_up_to};

/// The number that a text spells in digits, if it has 64 bits.
pub fn number(text: &[u8]) -> Option<u64>
    ensures { result ≡ number_of text.now }
{
    number_up_to(u64::MAX, text)
}

/// The number of the address that a text spells, as `10.0.6.1`: four numbers of one to three digits, each at most
/// 255, of which the first stands for the highest byte.
#[inline(never)] // Inlined into one large function, it would keep its numbers on the stack.
pub fn address(text: &[u8]) -> Option<u32>
    ensures { result ≡ address_of text.now }
{
    let (first, rest) = part(text)?;
    let (second, rest) = part(rest)?;
    let (third, rest) = part(rest)?;
    let (fourth, rest) = octet(rest)?;
    if rest.is_empty() {
        Some(((first * 256 + second) * 256 + third) * 256 + fourth)
    } else {
        None
    }
}

// A part of an address at the front of a text, and the text behind its dot.
#[inline(always)]
fn part(text: &[u8]) -> Option<(u32, &[u8])>
    ensures read { MatchOption result (IsNoPart text.now) (λ pair. IsPartFront text.now pair.0 pair.1.now) }
    ensures small { IfSome result (λ pair. pair.0 ≤ 255) }
{
    let (number, rest) = octet(text)?;
    let behind = behind_dot(rest)?;
    Some((number, behind))
}

// The number that up to three digits at the front of a text spell, if it is at most 255, and the text behind them. A
// fourth digit is left to the caller, who expects a dot or the end there.
#[inline(always)]
fn octet(text: &[u8]) -> Option<(u32, &[u8])>
    ensures read { MatchOption result (IsNoOctet text.now) (λ pair. IsOctetFront text.now pair.0 pair.1.now) }
    ensures small { IfSome result (λ pair. pair.0 ≤ 255) }
{
    let (first, rest) = digit(text)?;
    let Some((second, rest)) = digit(rest) else {
        return Some((first, rest));
    };
    let front = first * 10 + second;
    let Some((third, rest)) = digit(rest) else {
        return Some((front, rest));
    };
    let whole = front * 10 + third;
    if whole <= 255 {
        Some((whole, rest))
    } else {
        None
    }
}

// The digit at the front of a text, and the text behind it.
#[inline(always)]
fn digit(text: &[u8]) -> Option<(u32, &[u8])>
    ensures digit { MatchOption result (BeginsNoDigit text.now) (λ pair. text.now ≡ (48 + pair.0) ∷ pair.1.now) }
    ensures small { IfSome result (λ pair. pair.0 ≤ 9) }
{
    let (byte, rest) = text.split_first()?;
    if byte.is_ascii_digit() {
        Some((u32::from(*byte - b'0'), rest))
    } else {
        None
    }
}

// The text behind a dot at its front.
#[inline(always)]
fn behind_dot(text: &[u8]) -> Option<&[u8]>
    ensures { MatchOption result (BeginsNoDot text.now) (λ rest. text.now ≡ 46 ∷ rest.now) }
{
    let (byte, rest) = text.split_first()?;
    if *byte == b'.' { Some(rest) } else { None }
}

/// The number that a text spells in digits, if it is at most `most`.
pub fn number_up_to(most: u64, text: &[u8]) -> Option<u64>
    ensures { result ≡ number_up_to most text.now }
{
    if text.is_empty() {
        return None;
    }
    let mut number = 0u64;
    for digit in text {
        if !digit.is_ascii_digit() {
            return None;
        }
        number = number
            .checked_mul(10)?
            .checked_add(u64::from(*digit - b'0'))?;
    }
    if number <= most { Some(number) } else { None }
}
