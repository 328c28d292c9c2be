ghost use Rattle.std.specs.Prelude.{◌≡◌, length};
ghost use Rattle.joiner.specs.Joined.{joined_of, IsJoin};
ghost use Rattle.joiner.specs.Level.{chosen, selective_pairs};
ghost use Rattle.std.proofs.lemmas.Nat.{mul-le};
ghost use Rattle.joiner.specs.Counts.{count_le};

use crate::chosen::Chosen;
use crate::combine::combine;
use crate::joiner::Joiner;
use crate::level::level_of;
use crate::operands::Operands;
use crate::refusal::JoinRefusal;
use field::Field;

// Joins the entries of both that are not above their level.
fn join_chosen<F: Field>(operands: &Operands<F>, joined: &mut [u16]) -> u32
    requires { length joined.old ≡ (F.Field.meaning operands.now.field.now).order }
    ensures count { result ≡ selective_pairs (F.Field.meaning operands.now.field.now).order operands.now.ceiling operands.now.left.now operands.now.right.now }
    ensures joined { joined.new ≡ joined_of (F.Field.meaning operands.now.field.now) operands.now.left.now operands.now.right.now }
    ensures law { IsJoin (F.Field.meaning operands.now.field.now) operands.now.left.now operands.now.right.now joined.new }
{
    let level = level_of(operands);
    let mut lefts = Chosen::none();
    let mut rights = Chosen::none();
    lefts.choose(level, operands.left);
    rights.choose(level, operands.right);
    combine(operands, &lefts, &rights, joined)
}

// Combines only the entries up to a level, found so that these give the whole join, and tells how many pairs these are.
pub struct Selective;

impl Joiner for Selective {
    ghost pairs = { λ _ q ceiling left right. selective_pairs q ceiling left right };

    ghost bounded = { unfold selective_pairs chosen in λ j q ceiling l r. mul-le _ _ q q (count_le q _) (count_le q _) };

    // Stays (rule): both joiners test the operands themselves, since a public method between could not require that nothing is refused.
    fn join<F: Field>(
        &self,
        field: &F,
        ceiling: u16,
        left: &[u16],
        right: &[u16],
        joined: &mut [u16],
    ) -> Result<u32, JoinRefusal> {
        let operands = Operands::new(field, ceiling, left, right, joined.len())?;
        Ok(join_chosen(&operands, joined))
    }
}
