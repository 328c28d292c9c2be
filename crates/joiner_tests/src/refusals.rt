use crate::three::examples;
use joiner::{Full, JoinRefusal, Joiner, Selective};
use prime::Prime;
use std::process::Abort;
use std::test::Fail;

// A join over the prime field of order 3 is refused so, and leaves its target as it was.
fn refused<J: Joiner>(
    rt: &impl Abort,
    joiner: &J,
    ceiling: u16,
    left: &[u16],
    right: &[u16],
    long: usize,
    refusal: JoinRefusal,
) -> Result<(), Fail> {
    let field = Prime::new(3)?;
    let mut third = [4u16, 5, 6, 7];
    assert!(rt; long <= 4);
    assert_eq!(rt;
        joiner.join(&field, ceiling, left, right, &mut third[0..long]),
        Err(refusal)
    );
    assert_eq!(rt; third, [4, 5, 6, 7]);
    Ok(())
}

// Each refusal, and the ceiling before the lengths before the costs.
fn refusals<J: Joiner>(rt: &impl Abort, joiner: &J) -> Result<(), Fail> {
    refused(rt, joiner, 0, &[0, 8], &[0, 8, 8], 3, JoinRefusal::Ceiling)?;
    refused(
        rt,
        joiner,
        1024,
        &[0, 8, 8],
        &[0, 8, 8],
        3,
        JoinRefusal::Ceiling,
    )?;
    refused(rt, joiner, 7, &[0, 8], &[0, 8, 8], 3, JoinRefusal::Length)?;
    refused(
        rt,
        joiner,
        7,
        &[0, 8, 8],
        &[0, 8, 8, 8],
        3,
        JoinRefusal::Length,
    )?;
    refused(
        rt,
        joiner,
        7,
        &[0, 8, 8],
        &[0, 8, 8],
        4,
        JoinRefusal::Length,
    )?;
    refused(rt, joiner, 7, &[0, 8, 8], &[0, 8, 8], 3, JoinRefusal::Cost)?;
    refused(rt, joiner, 7, &[0, 8, 8], &[0, 7, 7], 3, JoinRefusal::Cost)?;
    refused(rt, joiner, 7, &[0, 7, 7], &[0, 8, 8], 3, JoinRefusal::Cost)
}

// Stays (plain): a test for each joiner over one text, so that a failure names the joiner.
#[test]
fn full_refuses(rt: HostRuntime) -> Result<(), Fail> {
    refusals(&rt, &Full)
}

#[test]
fn selective_refuses(rt: HostRuntime) -> Result<(), Fail> {
    refusals(&rt, &Selective)
}

#[test]
fn runs_the_examples(rt: HostRuntime) {
    let r = examples();
    assert_eq!(rt; r.full.pairs, Ok(9));
    assert_eq!(rt; r.full.third, [0, 5, 6]);
    assert_eq!(rt; r.selective.pairs, Ok(4));
    assert_eq!(rt; r.selective.third, [0, 5, 6]);
    assert_eq!(rt; r.high.pairs, Ok(1));
    assert_eq!(rt; r.high.third, [0, 8, 8]);
}
