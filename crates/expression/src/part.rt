// Parts of an expression, brought to constant and coefficients: their sums, differences and products, each within its limits.
ghost use Rattle.std.specs.Prelude.{◌≡◌, ℕ, ◌<◌, List, ℤ, Some, length};
ghost use Rattle.expression.specs.bridge.Forms.{Small};

mod operations;

pub use operations::{minus, plus, times};

// The constant (the first number) and the coefficients by position, in signed 32 bits. Where refusal 17 is met there is no part.
#[derive(Clone, Copy)]
pub struct Part {
    pub numbers: [i32; 9],
    pub ghost small: { Small numbers },
}

impl Part {
    ghost use Rattle.expression.specs.Parts.{checked, number_part, place_part, flat, scaled, plus_part, minus_part, times_part};
    ghost use Rattle.expression.specs.bridge.Answers.{Gives, kept};

    #[tactic(auto, unfolding(crate::specs::Parts::number_part), using(crate::proofs::Laws::Numbers::back))]
    pub fn constant(v: u16) -> Part
        ensures { Some result.numbers ≡ number_part v }
    {
        let mut numbers = [0; 9];
        numbers[0] = i32::from(v);
        Part { numbers }
    }

    #[tactic(auto, unfolding(crate::specs::Parts::place_part))]
    pub fn place(k: usize) -> Part
        requires { k < 8 }
        ensures { Some result.numbers ≡ place_part k }
    {
        let mut numbers = [0; 9];
        numbers[k + 1] = 1;
        Part { numbers }
    }

    // The part whose numbers `f` gives, if it gives each.
    fn filled<F: Fn(usize) -> Option<i32>>(f: F) -> Option<Part>
        requires { (k : ℕ) → k < 9 → F.pre f k }
        ensures { (ns : List ℤ) → length ns ≡ 9 → Gives (F.post f) ns → kept result ≡ checked ns }
    {
        let mut numbers = [0; 9];
        for k in 0..9 {
            numbers[k] = f(k)?;
        }
        Some(Part { numbers })
    }

    #[tactic(auto, unfolding(crate::specs::Parts::plus_part, crate::specs::Parts::both), using(crate::proofs::Laws::Numbers::sums))]
    pub fn checked_add(&self, other: &Part) -> Option<Part>
        ensures { kept result ≡ plus_part (Some self.now.numbers) (Some other.now.numbers) }
    {
        Part::filled(|k| self.numbers[k].checked_add(other.numbers[k]))
    }

    #[tactic(auto, unfolding(crate::specs::Parts::minus_part, crate::specs::Parts::both), using(crate::proofs::Laws::Numbers::sums))]
    pub fn checked_sub(&self, other: &Part) -> Option<Part>
        ensures { kept result ≡ minus_part (Some self.now.numbers) (Some other.now.numbers) }
    {
        Part::filled(|k| self.numbers[k].checked_sub(other.numbers[k]))
    }

    fn scaled(&self, by: i32) -> Option<Part>
        ensures { kept result ≡ scaled self.now.numbers by }
    {
        Part::filled(|k| self.numbers[k].checked_mul(by))
    }

    // No coefficient other than 0.
    fn is_flat(&self) -> bool
        ensures { result ≡ flat self.now.numbers }
    {
        self.numbers[1..].iter().all(|k| *k == 0)
    }

    #[tactic(auto, using(crate::proofs::Laws::Numbers::products))]
    pub fn checked_mul(&self, other: &Part) -> Option<Part>
        ensures { kept result ≡ times_part (Some self.now.numbers) (Some other.now.numbers) }
    {
        if other.is_flat() {
            self.scaled(other.numbers[0])
        } else if self.is_flat() {
            other.scaled(self.numbers[0])
        } else {
            None
        }
    }
}
