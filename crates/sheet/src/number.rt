ghost use Rattle.std.specs.Prelude.{◌≡◌, ◌<◌, ◌≤◌, true, length};
ghost use Rattle.sheet.specs.Words.{digits, value, written, decimal_of};

fn all_digits(bytes: &[u8]) -> bool
    ensures { result ≡ digits bytes.now }
{
    bytes.iter().all(|b| b.is_ascii_digit())
}

// Stays (proof): a fold would be shorter, but its closure is told no bound on the number so far, so neither the
// product nor the sum is proved to fit.
fn value_of(bytes: &[u8]) -> u16
    requires { (length bytes.now ≤ 4) × (digits bytes.now ≡ true) }
    ensures { result ≡ value 0 bytes.now }
{
    let mut v: u16 = 0;
    for b in bytes {
        v = v * 10 + u16::from(*b - b'0');
    }
    v
}

// One to four digits, with no 0 before another digit.
fn is_written(bytes: &[u8]) -> bool
    ensures { result ≡ written bytes.now }
{
    match bytes {
        [] => false,
        [b'0', _, ..] => false,
        _ => bytes.len() <= 4 && all_digits(bytes),
    }
}

// The number that a field writes, if it is one as numbers are written.
#[tactic(auto, unfolding(crate::specs::Words::decimal_of))]
pub fn decimal(bytes: &[u8]) -> Option<u16>
    ensures { result ≡ decimal_of bytes.now }
{
    is_written(bytes).then(|| value_of(bytes))
}
