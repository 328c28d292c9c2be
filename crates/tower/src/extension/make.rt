ghost use Rattle.std.specs.Prelude.{◌≡◌, false, if◌then◌else◌, nat_eq};
ghost use Rattle.tower.specs.Towers.{has_root, parts_for, tower_refusal, tower_tables, bits};
ghost use Rattle.tower.specs.Raised.{Agree, Raised, OneTower};
ghost use Rattle.tower.specs.Copies.{tables_of};
ghost use Rattle.tower.specs.Made.{parts_of, meaning_of, refusal_of};

use super::Tower;
use super::tables::solve;
use crate::base::copy::{copy, two};
use crate::base::pairs::Pairs;
use field::{Field, FieldRefusal, fill};

// The tower of all pairs, with its own tables filled.
fn raise(pairs: Pairs) -> Tower
    requires { has_root (tables_of pairs.base) pairs.u pairs.v ≡ false }
    ensures { result.pairs ≡ pairs }
{
    let q = pairs.base.r * pairs.base.r;
    let mut sums = [0; 4096];
    fill(&mut sums, |k| pairs.sum((k / 64) as u8, (k % 64) as u8));
    let mut products = [0; 4096];
    fill(&mut products, |k| {
        pairs.product((k / 64) as u8, (k % 64) as u8)
    });
    let mut opposites = [0; 64];
    fill(&mut opposites, |a| solve(&sums, q, 0, a as u8));
    let mut inverses = [0; 64];
    fill(&mut inverses, |a| solve(&products, q, 1, a as u8));
    Tower {
        pairs,
        q,
        sums,
        products,
        opposites,
        inverses,
    }
}

// Makes the tower on copies of the base's tables, where y·y = u·y + v, and writes it whole into `tower`.
// Refuses with Order if r × r exceeds 64, NotCode if u or v is no code of the base, Root if t·t = u·t + v for some base code t; `tower` is
// then as it was.
pub fn make_tower<F: Field>(base: &F, u: u8, v: u8, tower: &mut Tower) -> Result<(), FieldRefusal>
    ensures answer { refusal_of result ≡ tower_refusal (F.Field.meaning base.now) u v }
    ensures tower { parts_of tower.new ≡ (if nat_eq (tower_refusal (F.Field.meaning base.now) u v) 0 then parts_for (F.Field.meaning base.now) u v else parts_of tower.old) }
    ensures agrees { tower_refusal (F.Field.meaning base.now) u v ≡ 0 → Agree (meaning_of tower.new) (tower_tables (F.Field.meaning base.now) u v) }
    ensures law { tower_refusal (F.Field.meaning base.now) u v ≡ 0 → Raised (F.Field.meaning base.now) u v (meaning_of tower.new) }
    ensures only { OneTower }
{
    let r = base.order();
    if r > 8 {
        return Err(FieldRefusal::Order);
    }
    if u >= r || v >= r {
        return Err(FieldRefusal::NotCode);
    }
    let pairs = Pairs {
        base: copy(base),
        u,
        v,
    };
    if pairs.has_root() {
        return Err(FieldRefusal::Root);
    }
    *tower = raise(pairs);
    Ok(())
}

impl Tower {
    // The built-in tower of order 4: y·y = y + 1 over the field of order 2.
    pub fn of_four() -> Tower
        ensures { parts_of result ≡ parts_for bits 1 1 }
    {
        raise(Pairs {
            base: two(),
            u: 1,
            v: 1,
        })
    }
}
