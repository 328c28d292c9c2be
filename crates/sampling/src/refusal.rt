ghost use Rattle.std.specs.Prelude.{◌≡◌};
ghost use Rattle.sampling.specs.Refusals.{number, is_matched, not_number, any_not};

use crate::samples::Sample;

/// Why samples become no costs: settings, ceiling or lengths out of range, or a sample that is not a number.
#[derive(Clone, Copy, PartialEq, Eq, Debug)]
pub enum SampleRefusal {
    Receiver = 27,
    Ceiling = 9,
    Length = 7,
    NotNumber = 28,
}

impl SampleRefusal {
    /// The number by which a report names the refusal.
    pub fn number(self) -> u8
        ensures { result ≡ number self }
    {
        self as u8
    }
}

// Whether there are 1 to 6 samples and a target of 2 to that power.
pub(crate) fn are_matched(samples: usize, costs: usize) -> bool
    ensures { result ≡ is_matched samples costs }
{
    (1..=6).contains(&samples) && costs == 1 << samples
}

fn is_not_number(sample: Sample) -> bool
    ensures { result ≡ not_number sample }
{
    match sample {
        Sample::Measured(x) => x.is_nan(),
        _ => false,
    }
}

// Whether some sample is not a number.
pub(crate) fn any_not(samples: &[Sample]) -> bool
    ensures { result ≡ any_not samples.now }
{
    samples.iter().any(|sample| is_not_number(*sample))
}
