ghost use Rattle.std.specs.Prelude.{◌≡◌, ◌^◌, ◌<◌, codes, drop, length, Ok};
ghost use Rattle.std.specs.Option.{option_map};
ghost use Rattle.std.specs.Str.{bytes_eq};
ghost use Rattle.notation.specs.Pieces.{pieces_of};
ghost use Rattle.anyfield.specs.Fields.{made_of};
ghost use Rattle.anyfield.specs.Written.{answered, base_from, behind, binary_of, field_of, first_number, prime_of, raise, raises, read_field, tower_of};
ghost use Rattle.anyfield.specs.declared.written.FieldFault.TheVariants.{Refused};

use crate::any::AnyField;
use binary::Binary;
use field::FieldRefusal;
use notation::{Parts, is_name};
use prime::Prime;

// Why a text gives no field: it is not written as fields are, or the field is refused.
#[derive(Clone, Copy, PartialEq, Eq, Debug)]
pub enum FieldFault {
    NotWritten,
    Refused(FieldRefusal),
}

impl From<FieldRefusal> for FieldFault {
    ghost from_gives = { λ r f. f ≡ Refused r };

    fn from(refusal: FieldRefusal) -> FieldFault {
        FieldFault::Refused(refusal)
    }
}

fn prime_of(q: Option<u8>) -> Result<AnyField, FieldFault>
    ensures { answered result ≡ prime_of q }
{
    let q = q.ok_or(FieldFault::NotWritten)?;
    Ok(AnyField::Prime(Prime::new(q)?))
}

fn binary_of(p: Option<u8>, polynomial: Option<u16>) -> Result<AnyField, FieldFault>
    ensures { answered result ≡ binary_of p polynomial }
{
    let p = p.ok_or(FieldFault::NotWritten)?;
    let polynomial = polynomial.ok_or(FieldFault::NotWritten)?;
    Ok(AnyField::Binary(Binary::new(p, polynomial)?))
}

fn tower_of(base: &AnyField, u: Option<u8>, v: Option<u8>) -> Result<AnyField, FieldFault>
    ensures { answered result ≡ tower_of (made_of base.now) u v }
{
    let u = u.ok_or(FieldFault::NotWritten)?;
    let v = v.ok_or(FieldFault::NotWritten)?;
    Ok(base.raised(u, v)?)
}

// The binary field that the next two parts name.
fn binary_from(parts: &mut Parts) -> Result<AnyField, FieldFault>
    ensures { behind (pieces_of parts.new) (answered result) ≡ behind (drop 2 (pieces_of parts.old)) (binary_of (first_number 255 (pieces_of parts.old)) (first_number 65535 (drop 1 (pieces_of parts.old)))) }
{
    let p = parts.read();
    binary_of(p, parts.read())
}

// The prime or binary field that a word, if there is one, and the parts behind it name.
#[tactic(auto, unfolding(crate::specs::Written::base_of))]
fn base_from(name: Option<&[u8]>, parts: &mut Parts) -> Result<AnyField, FieldFault>
    ensures { behind (pieces_of parts.new) (answered result) ≡ base_from (option_map (λ x. x.now) name.entry) (pieces_of parts.old) }
{
    match name {
        Some(b"prime") => prime_of(parts.read()),
        Some(b"binary") => binary_from(parts),
        _ => Err(FieldFault::NotWritten),
    }
}

// The tower on a field that the next two parts name.
fn tower_from(base: &AnyField, parts: &mut Parts) -> Result<AnyField, FieldFault>
    ensures { behind (pieces_of parts.new) (answered result) ≡ raise (Ok (made_of base.now, pieces_of parts.old)) }
{
    let u = parts.read();
    tower_of(base, u, parts.read())
}

// As many towers, one on the other.
fn towers_from(base: AnyField, towers: usize, parts: &mut Parts) -> Result<AnyField, FieldFault>
    ensures { behind (pieces_of parts.new) (answered result) ≡ raises towers (Ok (made_of base, pieces_of parts.old)) }
{
    let mut field = base;
    for _level in 0..towers {
        field = tower_from(&field, parts)?;
    }
    Ok(field)
}

fn is_tower(name: &[u8]) -> bool
    ensures { result ≡ bytes_eq name.now (codes "tower") }
{
    is_name(name, b"tower")
}

// How often the word `tower` comes, and the word behind.
// Stays (plain): `take_while(..).count()` takes the word behind too and does not give it back.
fn towers_in_front<'a>(parts: &mut Parts<'a>) -> (usize, Option<&'a [u8]>)
    requires { length (pieces_of parts.old) < 2 ^ 64 }
    ensures { raises result.0 (base_from (option_map (λ x. x.now) result.1) (pieces_of parts.new)) ≡ field_of (pieces_of parts.old) }
{
    let mut towers = 0;
    while let Some(name) = parts.next() {
        if !is_tower(name) {
            return (towers, Some(name));
        }
        towers += 1;
    }
    (towers, None)
}

// A field as text: `prime:q`, `binary:p:polynomial`, or `tower:FIELD:u:v` with a field inside.
// It is read from the left: the word `tower` comes as often as a pair u, v behind the innermost field, and the first fault is told.
pub fn read_field(text: &[u8]) -> Result<AnyField, FieldFault>
    ensures answer { answered result ≡ read_field text.now }
{
    let mut parts = Parts::new(text, b':');
    let (towers, name) = towers_in_front(&mut parts);
    let base = base_from(name, &mut parts)?;
    let field = towers_from(base, towers, &mut parts)?;
    // Stays (plain): a part that is left is the fault here, and none is the answer, the other way round than an option.
    match parts.next() {
        Some(_) => Err(FieldFault::NotWritten),
        None => Ok(field),
    }
}
