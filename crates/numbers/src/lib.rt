// Decimal numbers, read from bytes.
//
// One sign may stand in front, zeros may lead, and a number past the limit is refused.
#![tactic(auto)]

ghost use Rattle.std.specs.Prelude.{◌≡◌, ℕ, ◌+◌, ◌-◌, ◌*◌, ◌^◌, ◌<◌, ◌≤◌, true, length, ℤ, pos, neg_ℤ, if◌then◌else◌, Some, None, decimal, FitsSigned, nat_eq};
ghost use Rattle.std.specs.Int.{w32};
ghost use Rattle.std.specs.Option.{SomeIff, option_map};
ghost use Rattle.std.specs.Fmt.{signed_decimal as written};
ghost use Rattle.std.specs.Char.{is_ascii_digit};
ghost use Rattle.numbers.specs.Numeral.{after_plus, digits_after, numeral, unsigned, signed_numeral};

// The number that the text writes, with at most one `+` in front.
#[tactic(auto, using(crate::proofs::Decimal::read_back))]
pub fn number(text: &[u8], limit: u64) -> Option<u64>
    ensures value { result ≡ numeral limit text.now }
    ensures laws { (n : ℕ) → n ≤ limit → numeral limit (decimal n) ≡ Some n }
{
    digits(text.strip_prefix(b"+").unwrap_or(text), limit)
}

// The number that the text writes, with no sign.
#[tactic(auto, using(crate::proofs::Decimal::read_back, crate::proofs::Values::not_empty))]
pub fn digits(text: &[u8], limit: u64) -> Option<u64>
    ensures value { result ≡ unsigned limit text.now }
    ensures laws { (n : ℕ) → n ≤ limit → unsigned limit (decimal n) ≡ Some n }
{
    if text.is_empty() {
        return None;
    }
    value_of(text, limit)
}

// The value of digits alone; no digits at all count as 0.
fn value_of(text: &[u8], limit: u64) -> Option<u64>
    ensures { result ≡ digits_after limit 0 text.now }
{
    let mut value: u64 = 0;
    for b in text {
        value = grown(value, *b, limit)?;
    }
    Some(value)
}

// The value with one digit more, unless the byte is none or the value is past the limit.
fn grown(value: u64, b: u8, limit: u64) -> Option<u64>
    ensures { SomeIff result ((is_ascii_digit b ≡ true) × (value * 10 + (b - 48) ≤ limit)) (value * 10 + (b - 48)) }
{
    if !b.is_ascii_digit() {
        return None;
    }
    let more = value.checked_mul(10)?.checked_add(u64::from(b - b'0'))?;
    if more <= limit { Some(more) } else { None }
}

// The two limits that lines have; `number` reads for every limit.
pub fn number_u64(text: &[u8]) -> Option<u64>
    ensures { result ≡ numeral (2 ^ 64 - 1) text.now }
{
    number(text, u64::MAX)
}

pub fn number_u32(text: &[u8]) -> Option<u32>
    ensures { result ≡ numeral (2 ^ 32 - 1) text.now }
{
    u32::try_from(number(text, u64::from(u32::MAX))?).ok()
}

// The number that the text writes, with at most one `+` or `-` in front.
#[tactic(auto, using(crate::proofs::Decimal::read_back))]
pub fn number_i32(text: &[u8]) -> Option<i32>
    ensures value { result ≡ signed_numeral text.now }
    ensures laws { (z : ℤ) → FitsSigned w32 z → signed_numeral (written z) ≡ Some z }
{
    match text.strip_prefix(b"-") {
        Some(text) => negative(text),
        None => positive(text),
    }
}

// The number below zero whose digits follow a minus sign.
fn negative(text: &[u8]) -> Option<i32>
    ensures { result ≡ option_map (λ n. neg_ℤ (pos n)) (unsigned (2 ^ 31) text.now) }
{
    let value = digits(text, 2_147_483_648)?;
    i32::try_from(-i64::try_from(value).ok()?).ok()
}

fn positive(text: &[u8]) -> Option<i32>
    ensures { result ≡ option_map pos (numeral (2 ^ 31 - 1) text.now) }
{
    i32::try_from(number(text, 2_147_483_647)?).ok()
}

#[cfg(test)]
mod tests {
    use super::*;

    #[test]
    fn limits(rt: HostRuntime) {
        assert_eq!(rt; number_u32(b"+004294967295"), Some(4_294_967_295));
        assert_eq!(rt; number_u32(b"4294967296"), None);
        assert_eq!(rt; number_u64(b"18446744073709551616"), None);
        assert_eq!(rt; digits(b"+1", 9), None);
        assert_eq!(rt; number(b"++1", 9), None);
    }

    #[test]
    fn signs(rt: HostRuntime) {
        assert_eq!(rt; number_i32(b"-2147483648"), Some(-2_147_483_648));
        assert_eq!(rt; number_i32(b"-2147483649"), None);
        assert_eq!(rt; number_i32(b"+2147483647"), Some(2_147_483_647));
        assert_eq!(rt; number_i32(b"-0"), Some(0));
        assert_eq!(rt; number_i32(b"+-1"), None);
        assert_eq!(rt; number_i32(b"-"), None);
    }
}
