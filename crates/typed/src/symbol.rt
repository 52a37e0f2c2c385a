// The symbols that typed lines are made of, besides expressions.
ghost use Rattle.std.specs.Prelude.{true, not, ◌≡◌, ◌≤◌, length, drop, eqb};
ghost use Rattle.lists.specs.Lists.{all};
ghost use Rattle.typed.specs.bridge.Reader.{symbol};
ghost use Rattle.typed.specs.bridge.Answers.{Marks};

use expression::symbol::{code_at, skip};

pub const QUOTE: u16 = b'"' as u16;

pub const DOLLAR: u16 = b'$' as u16;

pub const COMMA: u16 = b',' as u16;

pub const DASH: u16 = b'-' as u16;

pub const SEMICOLON: u16 = b';' as u16;

pub const OPEN: u16 = b'[' as u16;

pub const BACKSLASH: u16 = b'\\' as u16;

pub const CLOSE: u16 = b']' as u16;

// The place behind a word, where it is the next symbol.
pub fn word(s: &[u16], at: usize, letters: &[u8]) -> Option<usize>
    requires at_in_bounds { at ≤ length s.now }
    requires no_zero { all (λ c. not (eqb c 0)) letters.now ≡ true }
    ensures { Marks s.now at result (symbol letters.now (drop at s.now)) }
{
    let mut next = skip(s, at);
    for &c in letters {
        if code_at(s, next) != u16::from(c) {
            return None;
        }
        next += 1;
    }
    Some(next)
}
