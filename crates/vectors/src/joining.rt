// The joiner in use.
ghost use Rattle.vectors.specs.Joinings.{pairs_by, pairs_few};

use field::Field;
use joiner::{Full, JoinRefusal, Joiner, Selective};

#[derive(Clone, Copy)]
pub enum Joining {
    Full,
    Selective,
}

impl Joiner for Joining {
    ghost pairs = { pairs_by };

    ghost bounded = { pairs_few };

    fn join<F: Field>(
        &self,
        field: &F,
        ceiling: u16,
        left: &[u16],
        right: &[u16],
        joined: &mut [u16],
    ) -> Result<u32, JoinRefusal> {
        match self {
            Joining::Full => Full.join(field, ceiling, left, right, joined),
            Joining::Selective => Selective.join(field, ceiling, left, right, joined),
        }
    }
}
