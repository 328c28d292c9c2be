ghost use Rattle.std.specs.Prelude.{◌≡◌};
ghost use Rattle.prime.specs.Primes.{prime_answer, PrimesListed};
ghost use Rattle.prime.specs.Answers.{answer_of};

use super::Prime;
use field::FieldRefusal;

const PRIMES: [u8; 18] = [
    2, 3, 5, 7, 11, 13, 17, 19, 23, 29, 31, 37, 41, 43, 47, 53, 59, 61,
];

impl Prime {
    // The prime field of order `q`. Refuses with Order if q is outside 2 to 64, with NotPrime unless q is prime.
    #[tactic(auto, using(crate::proofs::Contained::contained, crate::proofs::Factors::primes_listed))]
    pub fn new(q: u8) -> Result<Prime, FieldRefusal>
        ensures answer { answer_of result ≡ prime_answer q }
        ensures law { PrimesListed }
    {
        if q < 2 || q > 64 {
            return Err(FieldRefusal::Order);
        }
        if PRIMES.contains(&q) {
            Ok(Prime { q })
        } else {
            Err(FieldRefusal::NotPrime)
        }
    }
}
