ghost use Rattle.std.specs.Prelude.{◌≡◌, ℕ, ◌+◌, ◌*◌, ◌^◌, ◌<◌, ◌≤◌, false, length, is_ok, if◌then◌else◌, slice_index};
ghost use Rattle.sampling.specs.Costs.{costs_of};
ghost use Rattle.sampling.specs.Laws.{SamplingLaw};
ghost use Rattle.sampling.specs.Refusals.{any_not, outcome};

use crate::receiver::{Receiver, Settings};
use crate::refusal::{SampleRefusal, any_not, are_matched};
use crate::samples::Sample;
use crate::shares::Shares;

// Doubles the codes that have costs, by one bit more: those with bit 1 there stand above those with bit 0.
fn spread(costs: &mut [u16], half: usize, shares: Shares)
    requires { (2 * half ≤ length costs.old) × ((shares.low ≤ 1023) × ((shares.high ≤ 1023) × (((a : ℕ) → a < half → slice_index costs.old a ≤ 5115)))) }
    ensures low { (a : ℕ) → a < half → slice_index costs.new a ≡ slice_index costs.old a + shares.low }
    ensures high { (a : ℕ) → a < half → slice_index costs.new (half + a) ≡ slice_index costs.old a + shares.high }
{
    // Stays (proof): over the two halves from `split_at_mut` in a `zip`, the loop's invariant has a name only for the references handed
    // out, not for what was written through them. `enumerate` over the low half alone would still index the high one.
    for a in 0..half {
        let cost = costs[a];
        costs[a] = cost + shares.low;
        costs[half + a] = cost + shares.high;
    }
}

impl Receiver {
    // The costs by all samples: those by the first ones stand in front, and each sample spreads them over its bit.
    fn form(self, samples: &[Sample], costs: &mut [u16])
        requires { (length samples.now ≤ 6) × ((length costs.old ≡ 2 ^ length samples.now) × (any_not samples.now ≡ false)) }
        ensures { costs.new ≡ costs_of self.settings self.ceiling samples.now }
    {
        costs[0] = 0;
        for (i, sample) in samples.iter().enumerate() {
            spread(costs, 1 << i, self.shares_of(*sample));
        }
    }
}

/// Writes the costs of the codes 0 to 2^p - 1 by p samples, sample i for bit i: the sum of the levels at the bits where a code differs.
/// Refuses settings, a ceiling or lengths out of range, then a sample that is not a number; a refusal writes nothing.
pub fn channel_costs(
    settings: Settings,
    ceiling: u16,
    samples: &[Sample],
    costs: &mut [u16],
) -> Result<(), SampleRefusal>
    ensures answer { result ≡ outcome settings ceiling samples.now (length costs.old) }
    ensures written { costs.new ≡ (if is_ok (outcome settings ceiling samples.now (length costs.old)) then costs_of settings ceiling samples.now else costs.old) }
    ensures law { SamplingLaw }
{
    let receiver = Receiver::new(settings, ceiling)?;
    if !are_matched(samples.len(), costs.len()) {
        return Err(SampleRefusal::Length);
    }
    if any_not(samples) {
        return Err(SampleRefusal::NotNumber);
    }
    receiver.form(samples, costs);
    Ok(())
}
