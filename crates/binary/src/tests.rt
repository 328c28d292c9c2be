use super::Binary;
use field::{Field, FieldRefusal};
use std::test::Fail;

// Factors of the field by the polynomial 19, with their product.
const PRODUCTS: [(u8, u8, Option<u8>); 5] = [
    (8, 2, Some(3)),
    (8, 8, Some(12)),
    (15, 15, Some(10)),
    (1, 16, None),
    (16, 1, None),
];

#[test]
fn products(rt: HostRuntime) -> Result<(), Fail> {
    let field = Binary::new(4, 19)?;
    for (a, b, product) in PRODUCTS {
        assert_eq!(rt; field.product(a, b), product);
    }
    Ok(())
}

#[test]
fn inverses(rt: HostRuntime) -> Result<(), Fail> {
    let field = Binary::new(6, 67)?;
    for a in 1..64 {
        let b = field.inverse(a).ok_or("no inverse")?;
        assert_eq!(rt; field.product(a, b), Some(1));
    }
    assert_eq!(rt; field.inverse(64), None);
    Ok(())
}

// A number p and a polynomial, with the refusal.
const MADE: [(u8, u16, Option<FieldRefusal>); 7] = [
    (0, 1, Some(FieldRefusal::Order)),
    (7, 131, Some(FieldRefusal::Order)),
    (4, 0, Some(FieldRefusal::Degree)),
    (6, 65535, Some(FieldRefusal::Degree)),
    (4, 21, Some(FieldRefusal::Reducible)),
    (1, 2, None),
    (1, 3, None),
];

#[test]
fn refusals(rt: HostRuntime) {
    for (p, polynomial, refusal) in MADE {
        assert_eq!(rt; Binary::new(p, polynomial).err(), refusal);
    }
}
