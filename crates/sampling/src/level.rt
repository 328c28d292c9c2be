ghost use Rattle.std.specs.Prelude.{◌≡◌, ◌<◌, ◌≤◌, true, false, is_nan};
ghost use Rattle.sampling.specs.Exact.{size, sized};
ghost use Rattle.sampling.specs.Receiver.{is_step};
ghost use Rattle.sampling.specs.Levels.{magnitude, reaches, level_at, measured_level};

use crate::receiver::Receiver;

// The rule: whether m reaches level k. The product is exact, since the step is a power of two.
fn reaches(k: u16, step: f32, m: f32) -> bool
    requires { (0 < k) × ((k ≤ 1023) × ((is_step step ≡ true) × (sized m ≡ true))) }
    ensures { result ≡ reaches (size step) (size m) k }
{
    f32::from(k) * step <= m
}

// The largest level up to the ceiling that m reaches, by halving what lies between a level reached and one missed.
// Stays (plain): the levels stand in no list, so `partition_point` would need one made first.
fn level(step: f32, m: f32, ceiling: u16) -> u16
    requires { (ceiling ≤ 1023) × ((is_step step ≡ true) × (sized m ≡ true)) }
    ensures { result ≡ level_at (size step) (size m) ceiling }
{
    let mut reached = 0;
    let mut missed = ceiling + 1;
    while reached + 1 < missed {
        let middle = (reached + missed) / 2;
        if reaches(middle, step, m) {
            reached = middle;
        } else {
            missed = middle;
        }
    }
    missed - 1
}

// The lesser of a sample's magnitude and the full scale.
fn scaled(x: f32, scale: f32) -> f32
    requires { (is_nan x ≡ false) × (sized scale ≡ true) }
    ensures finite { sized result ≡ true }
    ensures value { size result ≡ magnitude x (size scale) }
{
    // Stays (proof): `min` of floats promises either of two that are equal, so what the clause says of `x.abs().min(scale)` is not shown.
    let magnitude = x.abs();
    if magnitude <= scale { magnitude } else { scale }
}

impl Receiver {
    // The level of a measured sample.
    pub(crate) fn measured_level(self, x: f32) -> u16
        requires { is_nan x ≡ false }
        ensures { result ≡ measured_level self.settings self.ceiling x }
    {
        level(
            self.settings.step,
            scaled(x, self.settings.scale),
            self.ceiling,
        )
    }
}
