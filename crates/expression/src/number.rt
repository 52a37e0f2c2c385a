// Decimal numbers up to 65535.
ghost use Rattle.std.specs.Prelude.{◌≡◌, ◌≤◌, length, drop};
ghost use Rattle.expression.specs.Grammar.{is_digit};
ghost use Rattle.expression.specs.bridge.Text.{digits as digits_of};
ghost use Rattle.expression.specs.bridge.Answers.{Answers};

fn digit(c: u16) -> bool
    ensures { result ≡ is_digit c }
{
    matches!(c, 48..=57)
}

// The number at a place and the place behind it, or None (refusal 16).
#[tactic(auto, using(crate::proofs::Laws::Symbols::numbers))]
pub fn digits(s: &[u16], at: usize) -> Option<(u16, usize)>
    requires { at ≤ length s.now }
    ensures { Answers (λ v. v) s.now at (digits_of 0 (drop at s.now)) result }
{
    let mut v: u32 = 0;
    for i in at..s.len() {
        let c = s[i];
        if !digit(c) {
            return Some((v as u16, i));
        }
        v = v * 10 + u32::from(c - 48);
        if 65535 < v {
            return None;
        }
    }
    Some((v as u16, s.len()))
}
