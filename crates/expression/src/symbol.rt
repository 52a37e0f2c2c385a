// The symbols of a text: blanks are passed over, and the operators between an expression's parts.
ghost use Rattle.std.specs.Prelude.{◌≡◌, ◌≤◌, length, drop};
ghost use Rattle.expression.specs.Grammar.{is_blank};
ghost use Rattle.expression.specs.bridge.Text.{is_sign, is_star, first};
ghost use Rattle.expression.specs.bridge.Answers.{Skipped, Follows, Operates};

#[derive(Clone, Copy, Debug, PartialEq, Eq)]
pub enum Operation {
    Plus,
    Minus,
    Times,
}

fn blank(c: u16) -> bool
    ensures { result ≡ is_blank c }
{
    matches!(c, 10 | 13 | 32)
}

// The place where the next symbol begins. It is not inlined: in some callers the compiler would keep the place in three counts, of which each blank
// moves all.
#[inline(never)]
#[tactic(auto, using(crate::proofs::Laws::Symbols::skips))]
pub fn skip(s: &[u16], at: usize) -> usize
    requires { at ≤ length s.now }
    ensures { Skipped s.now at result }
{
    for i in at..s.len() {
        if !blank(s[i]) {
            return i;
        }
    }
    s.len()
}

// The character at a place, 0 at the end.
pub fn code_at(s: &[u16], at: usize) -> u16
    ensures { result ≡ first (drop at s.now) }
{
    s.get(at).copied().unwrap_or(0)
}

// The place behind the next symbol, if it is the character `c`.
#[tactic(auto, using(crate::proofs::Laws::Places::places))]
pub fn behind(s: &[u16], at: usize, c: u16) -> Option<usize>
    requires at_in_bounds { at ≤ length s.now }
    requires character { c ≡ 0 → ⊥ }
    ensures { Follows c s.now at result }
{
    let j = skip(s, at);
    if code_at(s, j) == c {
        Some(j + 1)
    } else {
        None
    }
}

// The `+` or `-` that comes next and the place behind it. The blanks before it are passed over once for both.
#[tactic(auto, using(crate::proofs::Laws::Places::places))]
pub fn sign(s: &[u16], at: usize) -> Option<(Operation, usize)>
    requires { at ≤ length s.now }
    ensures { Operates is_sign s.now at result }
{
    let j = skip(s, at);
    match code_at(s, j) {
        43 => Some((Operation::Plus, j + 1)),
        45 => Some((Operation::Minus, j + 1)),
        _ => None,
    }
}

pub fn star(s: &[u16], at: usize) -> Option<(Operation, usize)>
    requires { at ≤ length s.now }
    ensures { Operates is_star s.now at result }
{
    Some((Operation::Times, behind(s, at, 42)?))
}
