ghost use Rattle.std.specs.Prelude.{◌≡◌, ◌*◌, length};
ghost use Rattle.joiner.specs.Joined.{joined_of, IsJoin};
ghost use Rattle.std.proofs.Common.{rules};

use crate::combine::combine;
use crate::joiner::Joiner;
use crate::operands::Operands;
use crate::refusal::JoinRefusal;
use crate::whole::Whole;
use field::Field;

// Joins all entries of both.
fn join_whole<F: Field>(operands: &Operands<F>, joined: &mut [u16]) -> u32
    requires { length joined.old ≡ (F.Field.meaning operands.now.field.now).order }
    ensures count { let q = (F.Field.meaning operands.now.field.now).order in result ≡ q * q }
    ensures joined { joined.new ≡ joined_of (F.Field.meaning operands.now.field.now) operands.now.left.now operands.now.right.now }
    ensures law { IsJoin (F.Field.meaning operands.now.field.now) operands.now.left.now operands.now.right.now joined.new }
{
    let lefts = Whole {
        costs: operands.left,
    };
    let rights = Whole {
        costs: operands.right,
    };
    combine(operands, &lefts, &rights, joined)
}

// Combines all entries, and tells q × q pairs.
pub struct Full;

impl Joiner for Full {
    ghost pairs = { λ _ q ceiling left right. q * q };

    ghost bounded = { Prim.search rules };

    // Stays (rule): both joiners test the operands themselves, since a public method between could not require that nothing is refused.
    fn join<F: Field>(
        &self,
        field: &F,
        ceiling: u16,
        left: &[u16],
        right: &[u16],
        joined: &mut [u16],
    ) -> Result<u32, JoinRefusal> {
        let operands = Operands::new(field, ceiling, left, right, joined.len())?;
        Ok(join_whole(&operands, joined))
    }
}
