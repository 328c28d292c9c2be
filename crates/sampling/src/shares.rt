ghost use Rattle.std.specs.Prelude.{◌≡◌, true, false, if◌then◌else◌};
ghost use Rattle.sampling.specs.Exact.{negative};
ghost use Rattle.sampling.specs.Costs.{share_of};
ghost use Rattle.sampling.specs.Refusals.{not_number};

use crate::receiver::Receiver;
use crate::samples::Sample;

// What a sample adds to the codes with bit 0 at its place, and to those with bit 1.
#[derive(Clone, Copy)]
pub(crate) struct Shares {
    pub(crate) low: u16,
    pub(crate) high: u16,
}

// A level counts against the codes with the other bit.
fn towards(bit: bool, level: u16) -> Shares
    ensures { (result.low ≡ (if bit then level else 0)) × (result.high ≡ (if bit then 0 else level)) }
{
    if bit {
        Shares {
            low: level,
            high: 0,
        }
    } else {
        Shares {
            low: 0,
            high: level,
        }
    }
}

// Whether a measured sample means bit 1: no zero does, whatever its sign.
fn is_negative(x: f32) -> bool
    ensures { result ≡ negative x }
{
    x < 0.0
}

impl Receiver {
    pub(crate) fn shares_of(self, sample: Sample) -> Shares
        requires { not_number sample ≡ false }
        ensures { (result.low ≡ share_of self.settings self.ceiling false sample) × (result.high ≡ share_of self.settings self.ceiling true sample) }
    {
        // Stays (plain): each arm says towards which bit and with what level. Taken out of the arms, the two would make a pair only to be
        // handed on.
        match sample {
            Sample::Lost => towards(false, 0),
            Sample::Known(bit) => towards(bit, self.ceiling),
            Sample::Measured(x) => towards(is_negative(x), self.measured_level(x)),
        }
    }
}
