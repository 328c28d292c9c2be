#![tactic(auto)]

ghost use Rattle.std.specs.Prelude.{◌≡◌, Some};
ghost use Rattle.kinds.specs.Examples.{Examples};

use binary::Binary;
use field::Field;
use prime::Prime;
use tower::{Tower, make_tower};

#[cfg(test)]
mod tests;

// The worked examples of the three kinds: the products 8·2 and 8·8 by the polynomial 19, then 3·3 and 4·4
// in the tower on prime 3 where y·y = 2; and, as facts, what making a field of each kind refuses.
#[tactic(auto, using(crate::proofs::Computed::examples))]
pub fn worked() -> Option<(u8, u8, u8, u8)>
    ensures answer { result ≡ Some (3, 12, 2, 6) }
    ensures examples { Examples }
{
    let binary = Binary::new(4, 19).ok()?;
    let base = Prime::new(3).ok()?;
    let mut tower = Tower::of_four();
    make_tower(&base, 0, 2, &mut tower).ok()?;
    Some((
        binary.product(8, 2)?,
        binary.product(8, 8)?,
        tower.product(3, 3)?,
        tower.product(4, 4)?,
    ))
}
