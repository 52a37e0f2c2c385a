// Sums, differences and products of parts that may have met refusal 17: there is one where neither has met it, nor what they make.
ghost use Rattle.std.specs.Prelude.{◌≡◌};
ghost use Rattle.expression.specs.Parts.{plus_part, minus_part, times_part};
ghost use Rattle.expression.specs.bridge.Answers.{kept};

use crate::part::Part;

// The sum.
#[tactic(auto, unfolding(crate::specs::Parts::plus_part, crate::specs::Parts::both))]
pub fn plus(a: Option<Part>, b: Option<Part>) -> Option<Part>
    ensures { kept result ≡ plus_part (kept a) (kept b) }
{
    a?.checked_add(&b?)
}

// The difference.
#[tactic(auto, unfolding(crate::specs::Parts::minus_part, crate::specs::Parts::both))]
pub fn minus(a: Option<Part>, b: Option<Part>) -> Option<Part>
    ensures { kept result ≡ minus_part (kept a) (kept b) }
{
    a?.checked_sub(&b?)
}

// The product, of which one factor is a number.
#[tactic(auto, unfolding(crate::specs::Parts::times_part, crate::specs::Parts::both))]
pub fn times(a: Option<Part>, b: Option<Part>) -> Option<Part>
    ensures { kept result ≡ times_part (kept a) (kept b) }
{
    a?.checked_mul(&b?)
}
