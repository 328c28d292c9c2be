ghost use Rattle.std.specs.Prelude.{◌≡◌, ◌+◌, ◌^◌, ◌<◌, ◌≤◌, length};
ghost use Rattle.sheet.specs.Pieces.{split, first};

// How many bytes stand before the first `stop`, or in all.
pub fn until(bytes: &[u8], stop: u8) -> usize
    ensures value { result ≡ length (first stop bytes.now) }
    ensures within { result ≤ length bytes.now }
{
    bytes.iter().position(|b| *b == stop).unwrap_or(bytes.len())
}

// How many pieces there are between the bytes `stop`.
// Each byte gives 1 or 0 to a sum, which takes many at a time, where `filter` and `count` take one.
pub fn pieces(bytes: &[u8], stop: u8) -> usize
    requires { length bytes.now + 1 < 2 ^ 64 }
    ensures { result ≡ length (split stop bytes.now) }
{
    bytes.iter().map(|b| usize::from(*b == stop)).sum::<usize>() + 1
}
