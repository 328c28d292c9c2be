ghost use Rattle.std.specs.Prelude.{◌≡◌, ℕ, ◌*◌, ◌≤◌, true, List, length, is_ok};
ghost use Rattle.joiner.specs.Joined.{IsJoin};
ghost use Rattle.joiner.specs.Answers.{told, answer_of, third_of};

use crate::refusal::JoinRefusal;
use field::Field;

// A way to join two vectors of q costs. Its meaning is the rule by which it tells its pairs, from q, the ceiling and both vectors.
// What it writes is the same for every joiner.
pub trait Joiner {
    ghost pairs: { Self → ℕ → ℕ → List ℕ → List ℕ → ℕ };

    // Writes the join to `joined`, at each code the least cost of the pairs that sum to it, and answers the pairs told.
    // Refuses a ceiling outside 1 to 1,023, then a vector that is not q long, then a cost above the ceiling; a refusal writes nothing.
    fn join<F: Field>(
        &self,
        field: &F,
        ceiling: u16,
        left: &[u16],
        right: &[u16],
        joined: &mut [u16],
    ) -> Result<u32, JoinRefusal>
        ensures answer { told result ≡ answer_of (F.Field.meaning field.now) (pairs self.now) ceiling left.now right.now (length joined.old) }
        ensures joined { joined.new ≡ third_of (F.Field.meaning field.now) ceiling left.now right.now joined.old }
        ensures law { is_ok result ≡ true → IsJoin (F.Field.meaning field.now) left.now right.now joined.new };

    ghost bounded: { (j : Self) (q ceiling : ℕ) (left right : List ℕ) → pairs j q ceiling left right ≤ q * q };
}
