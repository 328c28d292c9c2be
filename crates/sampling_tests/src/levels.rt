use sampling::{Sample, SampleRefusal, Settings, channel_costs};
use std::test::Fail;

// What one measured sample makes the codes 0 and 1 cost.
fn measured(step: f32, scale: f32, ceiling: u16, x: f32) -> Result<[u16; 2], SampleRefusal> {
    let mut costs = [0; 2];
    channel_costs(
        Settings { step, scale },
        ceiling,
        &[Sample::Measured(x)],
        &mut costs,
    )?;
    Ok(costs)
}

#[test]
fn two_samples(rt: HostRuntime) -> Result<(), Fail> {
    let mut costs = [9; 4];
    channel_costs(
        Settings {
            step: 0.25,
            scale: 4.0,
        },
        31,
        &[Sample::Measured(-0.80), Sample::Measured(0.25)],
        &mut costs,
    )?;
    assert_eq!(rt; costs, [3, 0, 4, 1]);
    Ok(())
}

// Three steps and just under, at each of the eleven steps.
#[test]
fn every_step(rt: HostRuntime) -> Result<(), Fail> {
    let mut step: f32 = 1.0;
    for _ in 0..11u8 {
        let x = step * 3.0;
        assert_eq!(rt; measured(step, 4.0, 31, x)?, [0, 3]);
        assert_eq!(rt; measured(step, 4.0, 31, x.next_down())?, [0, 2]);
        assert_eq!(rt; measured(step, 4.0, 31, -x)?, [3, 0]);
        step *= 0.5;
    }
    Ok(())
}

// Step 0.25, full scale 4: the level against code 0, and against code 1.
#[test]
fn magnitudes(rt: HostRuntime) -> Result<(), Fail> {
    let cases: [(f32, u16, [u16; 2]); 12] = [
        (0.0, 31, [0, 0]),
        (-0.0, 31, [0, 0]),
        (1.0e-45, 31, [0, 0]),
        (0.25, 31, [0, 1]),
        (-3.9999998, 31, [15, 0]),
        (4.0, 31, [0, 16]),
        (-4.25, 31, [16, 0]),
        (3.0e38, 1023, [0, 16]),
        (f32::INFINITY, 1023, [0, 16]),
        (f32::NEG_INFINITY, 31, [16, 0]),
        (4.0, 5, [0, 5]),
        (-4.0, 1, [1, 0]),
    ];
    for (x, ceiling, costs) in cases {
        assert_eq!(rt; measured(0.25, 4.0, ceiling, x)?, costs);
    }
    Ok(())
}

// At the smallest step, levels up to the largest ceiling.
#[test]
fn finest(rt: HostRuntime) -> Result<(), Fail> {
    assert_eq!(rt; measured(0.0009765625, 1.0, 1023, 0.99902344)?, [0, 1023]);
    assert_eq!(rt; measured(0.0009765625, 1.0, 1023, 0.9990234)?, [0, 1022]);
    assert_eq!(rt; measured(0.0009765625, 1.0, 1023, 1.0)?, [0, 1023]);
    Ok(())
}

// Six known bits that make up code 41, sample 0 its lowest: a code costs the ceiling at each bit where it differs.
#[test]
fn six_bits(rt: HostRuntime) -> Result<(), Fail> {
    let on = Sample::Known(true);
    let off = Sample::Known(false);
    let mut costs = [0; 64];
    channel_costs(
        Settings {
            step: 0.25,
            scale: 4.0,
        },
        1023,
        &[on, off, off, on, off, on],
        &mut costs,
    )?;
    for (code, cost) in costs.iter().enumerate() {
        assert_eq!(rt; *cost % 1023, 0);
        assert_eq!(rt; u32::from(*cost / 1023), (code ^ 41).count_ones());
    }
    Ok(())
}
