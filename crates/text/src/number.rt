// A decimal number at the start of a part of a file.
// Each function is a definition of specs/Number, for every value.
ghost use Rattle.std.specs.Prelude.{◌≡◌};
ghost use Rattle.text.specs.Number.{numeral, number_of};

use crate::words::byte_at;

// A number, with the count of its digits.
#[derive(Clone, Copy)]
pub struct Number {
    pub value: u32,
    pub next: usize,
}

// The number that n digits say, the first of them being the byte `first`.
#[tactic(auto, unfolding(crate::specs::Number::numeral))]
fn numeral(first: u8, value: u32, n: usize) -> Option<Number>
    ensures { result ≡ numeral first value n }
{
    if n == 0 {
        return None;
    }
    if n == 1 {
        return Some(Number { value, next: n });
    }
    if first == b'0' {
        return None;
    }
    Some(Number { value, next: n })
}

// The number whose digits begin s: they end at the first byte that is none.
pub fn read_number(s: &[u8]) -> Option<Number>
    ensures { result ≡ number_of s.now }
{
    let mut value: u32 = 0;
    let mut n: usize = 0;
    for b in s {
        if !b.is_ascii_digit() {
            break;
        }
        let digit = u32::from(*b - b'0');
        value = value.checked_mul(10)?.checked_add(digit)?;
        n += 1;
    }
    numeral(byte_at(s, 0), value, n)
}
