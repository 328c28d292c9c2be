ghost use Rattle.std.specs.Prelude.{◌≡◌, ◌≤◌, IfSome};
ghost use Rattle.sheet.specs.Words.{digit};
ghost use Rattle.notation.specs.Numbers.{number_of};

use crate::written::Written;

fn is_digit(b: u8) -> bool
    ensures { result ≡ digit b }
{
    b.is_ascii_digit()
}

// The number that one or more digits write, if it is at most `largest`.
pub fn number(text: &[u8], largest: u32) -> Option<u32>
    ensures value { result ≡ number_of largest text.now }
    ensures within { IfSome result (λ n. n ≤ largest) }
{
    if text.is_empty() {
        return None;
    }
    // Stays (plain): `try_fold` would hold the same two refusals in one closure.
    let mut n: u64 = 0;
    for b in text {
        if !is_digit(*b) {
            return None;
        }
        n = n * 10 + u64::from(*b - b'0');
        if n > u64::from(largest) {
            return None;
        }
    }
    Some(n as u32)
}

// Stays (plain): one impl for every whole number would overlap those for floats and samples, so each width has its own.
// A number of 8 bits.
impl Written for u8 {
    ghost reads = { λ bs r. r ≡ number_of 255 bs };

    fn read(text: &[u8]) -> Option<u8> {
        Some(number(text, 255)? as u8)
    }
}

// A number of 16 bits.
impl Written for u16 {
    ghost reads = { λ bs r. r ≡ number_of 65535 bs };

    fn read(text: &[u8]) -> Option<u16> {
        Some(number(text, 65535)? as u16)
    }
}
