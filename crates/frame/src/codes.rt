ghost use Rattle.std.specs.Prelude.{◌≡◌, ◌<◌};
ghost use Rattle.frame.specs.Vectors.{minus, over_one};

use field::Field;

// Stays (plain): each of these answers a code below the order. A type for such a code would name its field, and the field's own calls,
// the tables and the words take plain bytes.
// Stays (rule): the encoder and the joiners have some of these too, since a public function may not require that its codes are below q.
// The product of two codes.
pub fn times<F: Field>(field: &F, a: u8, b: u8) -> u8
    requires { (a < (F.Field.meaning field.now).order) × (b < (F.Field.meaning field.now).order) }
    ensures is { result ≡ (F.Field.meaning field.now).product a b }
    ensures code { result < (F.Field.meaning field.now).order }
{
    field.product(a, b).unwrap()
}

// The opposite of a code.
pub fn negated<F: Field>(field: &F, a: u8) -> u8
    requires { a < (F.Field.meaning field.now).order }
    ensures is { result ≡ minus (F.Field.meaning field.now) a }
    ensures code { result < (F.Field.meaning field.now).order }
{
    field.opposite(a).unwrap()
}

// The inverse of a code that is not 0.
pub fn inverted<F: Field>(field: &F, a: u8) -> u8
    requires { (0 < a) × (a < (F.Field.meaning field.now).order) }
    ensures is { result ≡ over_one (F.Field.meaning field.now) a }
    ensures code { result < (F.Field.meaning field.now).order }
{
    field.inverse(a).unwrap()
}

// The sum of two codes.
pub fn plus<F: Field>(field: &F, a: u8, b: u8) -> u8
    requires { (a < (F.Field.meaning field.now).order) × (b < (F.Field.meaning field.now).order) }
    ensures is { result ≡ (F.Field.meaning field.now).sum a b }
    ensures code { result < (F.Field.meaning field.now).order }
{
    field.sum(a, b).unwrap()
}
