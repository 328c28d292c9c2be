// What a field answers for codes that are known to be below its order.
// Stays (rule): other crates have the like for themselves. To share it, it would have to be public, and a public function may not require
// that its codes are below q.
// A type for codes below the order would have to name its field, and the bytes that are read and written are plain.
ghost use Rattle.std.specs.Prelude.{◌≡◌, ◌<◌, ◌≢◌};

use field::Field;

// The sum of two codes.
pub(crate) fn plus<F: Field>(field: &F, a: u8, b: u8) -> u8
    requires left { a < (F.Field.meaning field.now).order }
    requires right { b < (F.Field.meaning field.now).order }
    ensures is { result ≡ (F.Field.meaning field.now).sum a b }
    ensures code { result < (F.Field.meaning field.now).order }
{
    field.sum(a, b).unwrap()
}

// The product of two codes.
pub(crate) fn times<F: Field>(field: &F, a: u8, b: u8) -> u8
    requires left { a < (F.Field.meaning field.now).order }
    requires right { b < (F.Field.meaning field.now).order }
    ensures is { result ≡ (F.Field.meaning field.now).product a b }
    ensures code { result < (F.Field.meaning field.now).order }
{
    field.product(a, b).unwrap()
}

// The code whose sum with `a` is 0.
pub(crate) fn opposite_of<F: Field>(field: &F, a: u8) -> u8
    requires { a < (F.Field.meaning field.now).order }
    ensures is { (F.Field.meaning field.now).sum a result ≡ 0 }
    ensures code { result < (F.Field.meaning field.now).order }
{
    field.opposite(a).unwrap()
}

// The code whose product with `a` is 1.
pub(crate) fn inverse_of<F: Field>(field: &F, a: u8) -> u8
    requires code { a < (F.Field.meaning field.now).order }
    requires nonzero { a ≢ 0 }
    ensures is { (F.Field.meaning field.now).product a result ≡ 1 }
    ensures code { result < (F.Field.meaning field.now).order }
{
    field.inverse(a).unwrap()
}
