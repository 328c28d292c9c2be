use binary::Binary;
use field::{Field, FieldRefusal, are_inverse, are_opposite};
use prime::Prime;
use std::process::Abort;
use std::test::Fail;
use tower::{Tower, make_tower};

#[test]
fn examples(rt: HostRuntime) {
    assert_eq!(rt; super::worked(), Some((3, 12, 2, 6)));
}

// An order with the refusal of its prime field.
const PRIMES: [(u8, Option<FieldRefusal>); 6] = [
    (1, Some(FieldRefusal::Order)),
    (2, None),
    (49, Some(FieldRefusal::NotPrime)),
    (61, None),
    (64, Some(FieldRefusal::NotPrime)),
    (65, Some(FieldRefusal::Order)),
];

#[test]
fn primes(rt: HostRuntime) {
    for (q, refusal) in PRIMES {
        assert_eq!(rt; Prime::new(q).err(), refusal);
    }
}

// A number p and a polynomial, with the refusal of the binary field.
// Stays (plain): crate binary tests the like by itself; here each of the three kinds has its table.
const BINARIES: [(u8, u16, Option<FieldRefusal>); 4] = [
    (7, 131, Some(FieldRefusal::Order)),
    (4, 35, Some(FieldRefusal::Degree)),
    (4, 21, Some(FieldRefusal::Reducible)),
    (4, 19, None),
];

#[test]
fn binaries(rt: HostRuntime) {
    for (p, polynomial, refusal) in BINARIES {
        assert_eq!(rt; Binary::new(p, polynomial).err(), refusal);
    }
}

// An order of the base, u and v, with the refusal of the tower and its order after.
const TOWERS: [(u8, u8, u8, Option<FieldRefusal>, u8); 6] = [
    (11, 0, 2, Some(FieldRefusal::Order), 4),
    (3, 3, 2, Some(FieldRefusal::NotCode), 4),
    (3, 0, 3, Some(FieldRefusal::NotCode), 4),
    (3, 0, 1, Some(FieldRefusal::Root), 4),
    (3, 0, 2, None, 9),
    (7, 0, 3, None, 49),
];

#[test]
fn towers(rt: HostRuntime) -> Result<(), Fail> {
    for (q, u, v, refusal, order) in TOWERS {
        let base = Prime::new(q)?;
        let mut tower = Tower::of_four();
        assert_eq!(rt; make_tower(&base, u, v, &mut tower).err(), refusal);
        assert_eq!(rt; tower.order(), order);
    }
    Ok(())
}

// A code that is not below the order has no answer, and 0 no inverse.
fn no_code<F: Field>(rt: &impl Abort, field: &F) {
    let q = field.order();
    assert_eq!(rt; field.sum(q, 0), None);
    assert_eq!(rt; field.sum(0, q), None);
    assert_eq!(rt; field.product(q, 1), None);
    assert_eq!(rt; field.product(1, q), None);
    assert_eq!(rt; field.opposite(q), None);
    assert_eq!(rt; field.inverse(q), None);
    assert_eq!(rt; field.inverse(0), None);
}

// Opposites and inverses over the whole field, by one sum and one product each.
fn undone<F: Field>(rt: &impl Abort, field: &F) {
    for a in 0..field.order() {
        for b in 0..field.order() {
            assert_eq!(rt; are_opposite(field, a, b), field.opposite(a) == Some(b));
            assert_eq!(rt; are_inverse(field, a, b), field.inverse(a) == Some(b));
        }
    }
    no_code(rt, field);
}

#[test]
fn prime_tables(rt: HostRuntime) -> Result<(), Fail> {
    let field = Prime::new(61)?;
    for a in 0..61u16 {
        for b in 0..61u16 {
            assert_eq!(rt; field.sum(a as u8, b as u8), Some(((a + b) % 61) as u8));
            assert_eq!(rt; field.product(a as u8, b as u8), Some((a * b % 61) as u8));
        }
    }
    undone(&rt, &field);
    Ok(())
}

// The code `c` shifted by one power, by the polynomial 67: x^6 is x + 1.
fn shifted(c: u8) -> u8 {
    if c < 32 { c * 2 } else { (c % 32 * 2) ^ 3 }
}

// The product by the polynomial 67, from the highest power of `b` down.
fn times(a: u8, b: u8) -> u8 {
    let mut c = 0;
    for bit in [32, 16, 8, 4, 2, 1] {
        c = shifted(c);
        if b & bit != 0 {
            c ^= a;
        }
    }
    c
}

#[test]
fn binary_tables(rt: HostRuntime) -> Result<(), Fail> {
    let field = Binary::new(6, 67)?;
    for a in 0..64 {
        for b in 0..64 {
            assert_eq!(rt; field.sum(a, b), Some(a ^ b));
            assert_eq!(rt; field.product(a, b), Some(times(a, b)));
        }
    }
    undone(&rt, &field);
    Ok(())
}

#[test]
fn tower_tables(rt: HostRuntime) -> Result<(), Fail> {
    let mut field = Tower::of_four();
    make_tower(&Prime::new(3)?, 0, 2, &mut field)?;
    for a in 0..9 {
        for b in 0..9 {
            let (l, h, m, k) = (a % 3, a / 3, b % 3, b / 3);
            assert_eq!(rt; field.sum(a, b), Some((l + m) % 3 + 3 * ((h + k) % 3)));
            assert_eq!(rt;
                field.product(a, b),
                Some((l * m + 2 * h * k) % 3 + 3 * ((l * k + h * m) % 3))
            );
        }
    }
    undone(&rt, &field);
    Ok(())
}

// 2 to 4 to 16: in the upper tower y·y = 2·y + 1, and 4 is y.
#[test]
fn tower_on_tower(rt: HostRuntime) -> Result<(), Fail> {
    let four = Tower::of_four();
    let mut sixteen = Tower::of_four();
    make_tower(&four, 2, 1, &mut sixteen)?;
    assert_eq!(rt; sixteen.order(), 16);
    assert_eq!(rt; sixteen.product(2, 2), Some(3));
    assert_eq!(rt; sixteen.product(4, 4), Some(9));
    undone(&rt, &sixteen);
    Ok(())
}
