ghost use Rattle.std.specs.Prelude.{◌≡◌};
ghost use Rattle.field.specs.Tables.{opposite_of, inverse_of};
ghost use Rattle.field.specs.Only.{is_answer, OneOpposite, OneInverse};

use super::Field;

// Whether `b` is the opposite of `a`. One sum tells, since no code has two opposites.
pub fn are_opposite<F: Field>(field: &F, a: u8, b: u8) -> bool
    ensures answer { result ≡ is_answer (opposite_of (F.Field.meaning field.now) a) b }
    ensures law { OneOpposite }
{
    field.sum(a, b) == Some(0)
}

// Whether `b` is the inverse of `a`. One product tells, since no code has two inverses; 0 has none.
pub fn are_inverse<F: Field>(field: &F, a: u8, b: u8) -> bool
    ensures answer { result ≡ is_answer (inverse_of (F.Field.meaning field.now) a) b }
    ensures law { OneInverse }
{
    field.product(a, b) == Some(1)
}
