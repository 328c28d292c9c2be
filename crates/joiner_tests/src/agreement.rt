ghost use Rattle.std.specs.Prelude.{◌≤◌};

use binary::Binary;
use field::Field;
use joiner::{Full, Joiner, Selective};
use prime::Prime;
use std::process::Abort;
use std::test::Fail;
use tower::{Tower, make_tower};

// Fills with costs up to the ceiling, a quarter of them the ceiling, and tells the next seed.
fn fill(costs: &mut [u16], ceiling: u16, seed: u32) -> u32
    requires { 1 ≤ ceiling }
{
    let mut seed = seed;
    for x in costs.iter_mut() {
        seed = seed.wrapping_mul(1664525).wrapping_add(1013904223);
        let draw = (seed >> 16) as u16;
        *x = if draw % 4 == 0 {
            ceiling
        } else {
            draw / 4 % ceiling
        };
    }
    seed
}

// Both joiners write the same of the next two vectors; tells the seed after them.
fn agree_once<F: Field>(rt: &impl Abort, field: &F, ceiling: u16, seed: u32) -> Result<u32, Fail> {
    let q = field.order() as usize;
    assert!(rt; q <= 64 && ceiling >= 1);
    // Stays (plain): arrays of the largest order, cut to q; vectors on the heap could run out of memory, which is no part of this test.
    let mut left = [0u16; 64];
    let mut right = [0u16; 64];
    let mut full = [0u16; 64];
    let mut selective = [0u16; 64];
    let middle = fill(&mut left, ceiling, seed);
    let end = fill(&mut right, ceiling, middle);
    let all = Full.join(field, ceiling, &left[0..q], &right[0..q], &mut full[0..q])?;
    let few = Selective.join(
        field,
        ceiling,
        &left[0..q],
        &right[0..q],
        &mut selective[0..q],
    )?;
    assert!(rt; few <= all);
    assert_eq!(rt; full, selective);
    Ok(end)
}

fn agree<F: Field>(rt: &impl Abort, field: &F, ceiling: u16) -> Result<(), Fail> {
    let mut seed = ceiling as u32;
    for _ in 0..40 {
        seed = agree_once(rt, field, ceiling, seed)?;
    }
    Ok(())
}

// A low ceiling makes many ties.
fn agree_at_ceilings<F: Field>(rt: &impl Abort, field: &F) -> Result<(), Fail> {
    for ceiling in [1, 3, 31, 64, 1023] {
        agree(rt, field, ceiling)?;
    }
    Ok(())
}

#[test]
fn over_primes(rt: HostRuntime) -> Result<(), Fail> {
    agree_at_ceilings(&rt, &Prime::new(2)?)?;
    agree_at_ceilings(&rt, &Prime::new(13)?)?;
    agree_at_ceilings(&rt, &Prime::new(61)?)
}

#[test]
fn over_binary(rt: HostRuntime) -> Result<(), Fail> {
    agree_at_ceilings(&rt, &Binary::new(4, 19)?)?;
    agree_at_ceilings(&rt, &Binary::new(6, 67)?)
}

#[test]
fn over_towers(rt: HostRuntime) -> Result<(), Fail> {
    let mut tower = Tower::of_four();
    agree_at_ceilings(&rt, &tower)?;
    make_tower(&Prime::new(3)?, 0, 2, &mut tower)?;
    agree_at_ceilings(&rt, &tower)
}
