use sampling::{Sample, SampleRefusal, Settings, channel_costs};

// The number of the refusal, if there is one.
fn told(step: f32, scale: f32, ceiling: u16, samples: &[Sample], costs: &mut [u16]) -> Option<u8> {
    channel_costs(Settings { step, scale }, ceiling, samples, costs)
        .err()
        .map(SampleRefusal::number)
}

#[test]
fn settings(rt: HostRuntime) {
    let cases: [(f32, f32, Option<u8>); 14] = [
        (1.0, 1.0, None),
        (0.0009765625, 3.0e38, None),
        (0.00048828125, 4.0, Some(27)),
        (2.0, 4.0, Some(27)),
        (0.3, 4.0, Some(27)),
        (0.75, 4.0, Some(27)),
        (-1.0, 4.0, Some(27)),
        (0.0, 4.0, Some(27)),
        (f32::NAN, 4.0, Some(27)),
        (f32::INFINITY, f32::INFINITY, Some(27)),
        (1.0, f32::INFINITY, Some(27)),
        (1.0, f32::NAN, Some(27)),
        (1.0, 0.99999994, Some(27)),
        (0.5, -4.0, Some(27)),
    ];
    for (step, scale, number) in cases {
        let mut costs = [7; 2];
        assert_eq!(rt; told(step, scale, 31, &[Sample::Lost], &mut costs), number);
    }
}

// Each call has one fault less than the one before.
#[test]
fn order(rt: HostRuntime) {
    let bad = [Sample::Lost, Sample::Measured(f32::NAN)];
    let mut three = [7; 3];
    assert_eq!(rt; told(0.3, 4.0, 0, &bad, &mut three), Some(27));
    assert_eq!(rt; told(0.25, 4.0, 0, &bad, &mut three), Some(9));
    assert_eq!(rt; told(0.25, 4.0, 1024, &bad, &mut three), Some(9));
    assert_eq!(rt; told(0.25, 4.0, 31, &bad, &mut three), Some(7));
    assert_eq!(rt; three, [7; 3]);
    let mut four = [7; 4];
    assert_eq!(rt; told(0.25, 4.0, 31, &bad, &mut four), Some(28));
    assert_eq!(rt; four, [7; 4]);
}

#[test]
fn lengths(rt: HostRuntime) {
    let mut one = [5; 1];
    assert_eq!(rt; told(0.25, 4.0, 31, &[], &mut one), Some(7));
    let mut short = [5; 63];
    assert_eq!(rt;
        told(0.25, 4.0, 31, &[Sample::Lost; 6], &mut short),
        Some(7)
    );
    let mut long = [5; 128];
    assert_eq!(rt; told(0.25, 4.0, 31, &[Sample::Lost; 6], &mut long), Some(7));
    assert_eq!(rt; told(0.25, 4.0, 31, &[Sample::Lost; 7], &mut long), Some(7));
}

// Not a number in each place of the longest symbol.
#[test]
fn not_numbers(rt: HostRuntime) {
    // Stays (plain): the place is what is tried, and each try has samples of its own; no list is gone over.
    for i in 0..6usize {
        let mut samples = [Sample::Measured(1.0); 6];
        samples[i] = Sample::Measured(f32::NAN);
        let mut costs = [7; 64];
        assert_eq!(rt; told(0.25, 4.0, 31, &samples, &mut costs), Some(28));
        assert_eq!(rt; costs, [7; 64]);
    }
}
