ghost use Rattle.std.specs.Prelude.{◌≡◌, replicate};
ghost use Rattle.joiner.specs.Answers.{told, answer_of, third_of};
ghost use Rattle.prime.specs.Primes.{prime_tables};
ghost use Rattle.joiner_tests.specs.Worked.{worked};

use crate::outcome::{Examples, Outcome};
use joiner::{Full, Joiner, Selective};
use prime::Prime;

// Joins over the prime field of order 3.
fn over_three<J: Joiner>(joiner: &J, ceiling: u16, left: &[u16], right: &[u16]) -> Outcome
    ensures answer { told result.pairs ≡ answer_of (prime_tables 3) (J.Joiner.pairs joiner.now) ceiling left.now right.now 3 }
    ensures joined { result.third ≡ third_of (prime_tables 3) ceiling left.now right.now (replicate 3 0) }
{
    let field = Prime::new(3).unwrap();
    let mut third = [0u16; 3];
    let pairs = joiner.join(&field, ceiling, left, right, &mut third);
    Outcome { pairs, third }
}

// The worked examples over the prime field of order 3: (0, 5, 9) with (0, 6, 8), and (0, 8, 8) with itself.
pub fn examples() -> Examples
    ensures { result ≡ worked }
{
    let left = [0, 5, 9];
    let right = [0, 6, 8];
    let twin = [0, 8, 8];
    Examples {
        full: over_three(&Full, 31, &left, &right),
        selective: over_three(&Selective, 31, &left, &right),
        high: over_three(&Selective, 8, &twin, &twin),
    }
}
