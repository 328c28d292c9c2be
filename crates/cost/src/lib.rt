// The arithmetic of message costs: what a round does with two numbers at a time.
#![tactic(auto)]

ghost use Rattle.std.specs.Prelude.{◌-◌, min, max, cond, ◌≡◌, ltb, nat_le};
ghost use Rattle.std.specs.List.{fold, list_all};

// The lesser of the least so far and one more cost.
pub fn lesser(least: u16, cost: u16) -> u16
    ensures { result ≡ min least cost }
{
    least.min(cost)
}

// A column's sum without one edge's own part; 0 where the part is more.
pub fn without(sum: u16, own: u16) -> u16
    ensures { result ≡ sum - own }
{
    sum.saturating_sub(own)
}

// A cost less the least one, 0 where that is more, then lowered to the ceiling.
pub fn reduced(cost: u16, least: u16, ceiling: u16) -> u16
    ensures { result ≡ min (cost - least) ceiling }
{
    cost.saturating_sub(least).min(ceiling)
}

// Which of two codes has the lesser distance; the first where they tie.
pub fn nearer(best: usize, best_distance: u16, code: usize, distance: u16) -> usize
    ensures { result ≡ cond (ltb distance best_distance) code best }
{
    if distance < best_distance { code } else { best }
}

// The greatest of some costs; of none it is 0.
fn greatest(costs: &[u16]) -> u16
    ensures { result ≡ fold max 0 costs.now }
{
    costs.iter().fold(0, |most: u16, cost| most.max(*cost))
}

// Whether no cost exceeds the ceiling: the greatest is compared, since a loop without an exit takes many at a time.
#[tactic(auto, using(crate::proofs::Ceilings::greatest_within))]
pub fn within(ceiling: u16, costs: &[u16]) -> bool
    ensures { result ≡ list_all (λ cost. nat_le cost ceiling) costs.now }
{
    greatest(costs) <= ceiling
}
