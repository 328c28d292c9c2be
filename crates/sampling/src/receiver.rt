ghost use Rattle.std.specs.Prelude.{◌≡◌, ℕ, ◌≤◌, true, List, Err, MatchResult};
ghost use Rattle.sampling.specs.Laws.{SamplingLaw};
ghost use Rattle.sampling.specs.Receiver.{is_step, settled};
ghost use Rattle.sampling.specs.Refusals.{is_ceiling, outcome};
ghost use Rattle.sampling.specs.declared.samples.Sample.{Sample};

use crate::refusal::SampleRefusal;

/// The receiver's settings: the step between two levels, and the full scale above which a magnitude says no more.
#[derive(Clone, Copy)]
pub struct Settings {
    pub step: f32,
    pub scale: f32,
}

// Settings that hold, and a ceiling in range.
// Stays (plain): the clause `law` stands in three functions, since the tests that a call makes first hand it on. It says nothing of a
// receiver, so it is no part of this type.
#[derive(Clone, Copy)]
pub(crate) struct Receiver {
    pub(crate) settings: Settings,
    pub(crate) ceiling: u16,
    ghost holds: { settled settings ≡ true },
    ghost high: { ceiling ≤ 1023 },
}

impl Receiver {
    // Tests the settings, and then the ceiling. A call makes these tests first, so they hand on the laws of sampling.
    pub(crate) fn new(settings: Settings, ceiling: u16) -> Result<Receiver, SampleRefusal>
        ensures answer { MatchResult result (λ r. (r.settings ≡ settings) × (r.ceiling ≡ ceiling) × (settled settings ≡ true) × (is_ceiling ceiling ≡ true)) (λ e. (xs : List Sample) (n : ℕ) → outcome settings ceiling xs n ≡ Err e) }
        ensures law { SamplingLaw }
    {
        if !are_settled(settings) {
            return Err(SampleRefusal::Receiver);
        }
        if !(1..=1023).contains(&ceiling) {
            return Err(SampleRefusal::Ceiling);
        }
        Ok(Receiver { settings, ceiling })
    }
}

// The steps: 2^0 down to 2^-10.
const STEPS: [f32; 11] = [
    1.0,
    0.5,
    0.25,
    0.125,
    0.0625,
    0.03125,
    0.015625,
    0.0078125,
    0.00390625,
    0.001953125,
    0.0009765625,
];

fn is_step(step: f32) -> bool
    ensures { result ≡ is_step step }
{
    STEPS.iter().any(|power| step == *power)
}

// Whether the step is a power of two in range, and the full scale finite and at least the step.
fn are_settled(settings: Settings) -> bool
    ensures answer { result ≡ settled settings }
    ensures law { SamplingLaw }
{
    is_step(settings.step) && settings.scale.is_finite() && settings.step <= settings.scale
}
