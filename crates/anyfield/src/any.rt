ghost use Rattle.std.specs.Prelude.{◌≡◌};
ghost use Rattle.anyfield.specs.Fields.{made_of, tables_of, told, tower_answer};
ghost use Rattle.anyfield.specs.Laws.{any_lawful};

use binary::Binary;
use field::{Field, FieldRefusal};
use prime::Prime;
use tower::{Tower, make_tower};

// A field of whichever kind: the one that a program has in use.
#[derive(Clone, Copy)]
pub enum AnyField {
    Prime(Prime),
    Binary(Binary),
    Tower(Tower),
}

// Each answer is that of the field inside.
// Stays (plain): one match a method; one match for all five would have to take the method as a closure over every kind of field.
impl Field for AnyField {
    ghost meaning = { λ f. tables_of (made_of f) };

    ghost lawful = { λ f. any_lawful f };

    fn order(&self) -> u8 {
        match self {
            AnyField::Prime(field) => field.order(),
            AnyField::Binary(field) => field.order(),
            AnyField::Tower(field) => field.order(),
        }
    }

    fn sum(&self, a: u8, b: u8) -> Option<u8> {
        match self {
            AnyField::Prime(field) => field.sum(a, b),
            AnyField::Binary(field) => field.sum(a, b),
            AnyField::Tower(field) => field.sum(a, b),
        }
    }

    fn product(&self, a: u8, b: u8) -> Option<u8> {
        match self {
            AnyField::Prime(field) => field.product(a, b),
            AnyField::Binary(field) => field.product(a, b),
            AnyField::Tower(field) => field.product(a, b),
        }
    }

    fn opposite(&self, a: u8) -> Option<u8> {
        match self {
            AnyField::Prime(field) => field.opposite(a),
            AnyField::Binary(field) => field.opposite(a),
            AnyField::Tower(field) => field.opposite(a),
        }
    }

    fn inverse(&self, a: u8) -> Option<u8> {
        match self {
            AnyField::Prime(field) => field.inverse(a),
            AnyField::Binary(field) => field.inverse(a),
            AnyField::Tower(field) => field.inverse(a),
        }
    }
}

impl AnyField {
    // The tower on this field where y·y = u·y + v, with `make_tower`'s refusals.
    pub fn raised(&self, u: u8, v: u8) -> Result<AnyField, FieldRefusal>
        ensures { told result ≡ tower_answer (tables_of (made_of self.now)) u v }
    {
        let mut tower = Tower::of_four();
        make_tower(self, u, v, &mut tower)?;
        Ok(AnyField::Tower(tower))
    }
}
