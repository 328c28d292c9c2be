ghost use Rattle.std.specs.Prelude.{◌≡◌, ◌+◌, ◌%◌, ◌<◌, ◌≤◌, true, Some};
ghost use Rattle.field.specs.Tables.{opposite_of};
ghost use Rattle.prime.specs.Primes.{is_prime, prime_tables};
ghost use Rattle.prime.specs.Laws.{prime_laws};

use field::Field;

mod make;

// The field of a prime order q: sum and product modulo q.
#[derive(Clone, Copy)]
pub struct Prime {
    q: u8,
    ghost prime: { is_prime q ≡ true },
    ghost small: { q ≤ 64 },
}

impl Prime {
    // The remainder of a number below 2·q: one subtraction, no division.
    fn reduced(&self, n: u8) -> u8
        requires { n < self.now.q + self.now.q }
        ensures { result ≡ n % self.now.q }
    {
        if n < self.q { n } else { n - self.q }
    }

    // The opposite of a code.
    #[tactic(auto, using(crate::proofs::Modulo::opposite_zero, crate::proofs::Modulo::opposite_over))]
    fn negated(&self, a: u8) -> u8
        requires { a < self.now.q }
        ensures { Some result ≡ opposite_of (prime_tables self.now.q) a }
    {
        if a == 0 { 0 } else { self.q - a }
    }
}

impl Field for Prime {
    ghost meaning = { λ f. prime_tables f.q };

    ghost lawful = { λ f. prime_laws f.q f.prime };

    fn order(&self) -> u8 {
        self.q
    }

    fn sum(&self, a: u8, b: u8) -> Option<u8> {
        (a < self.q && b < self.q).then(|| self.reduced(a + b))
    }

    fn product(&self, a: u8, b: u8) -> Option<u8> {
        (a < self.q && b < self.q).then(|| (a as u16 * b as u16 % self.q as u16) as u8)
    }

    #[tactic(auto, using(field::proofs::Unique::least_out))]
    fn opposite(&self, a: u8) -> Option<u8> {
        (a < self.q).then(|| self.negated(a))
    }
}
