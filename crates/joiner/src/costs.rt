ghost use Rattle.std.specs.Prelude.{◌≡◌, nat_le};
ghost use Rattle.joiner.specs.Costs.{worse};

// How two costs combine: the greater.
pub(crate) fn worse(x: u16, y: u16) -> u16
    ensures { result ≡ worse x y }
{
    x.max(y)
}

// Whether a cost is not above a level.
pub(crate) fn not_above(cost: u16, level: u16) -> bool
    ensures { result ≡ nat_le cost level }
{
    cost <= level
}
