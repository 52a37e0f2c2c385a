// Expressions typed as text: sum, product and factor readers that call each other. Each answers what it read, or None, which is refusal 16.
ghost use Rattle.std.specs.Prelude.{◌≡◌, ◌≤◌, length, drop};
ghost use Rattle.expression.specs.Grammar.{fold};
ghost use Rattle.expression.specs.Parts.{parts, number_part, place_part};
ghost use Rattle.expression.specs.bridge.Text.{digits as digits_of, map_read, place_digit, atom, join, sum as sum_of, product as product_of, factor as factor_of, within, expression_of};
ghost use Rattle.expression.specs.bridge.Answers.{Answers, character, kept};

use crate::number::digits;
use crate::part::{Part, minus, plus, times};
use crate::symbol::{Operation, behind, code_at, sign, skip, star};

// The part that was read, None where refusal 17 is met, and the place behind it.
pub type Reading = (Option<Part>, usize);

// "nested at most 16 deep"
const NESTING: usize = 16;

#[tactic(auto, unfolding(crate::specs::bridge::Text::map_read))]
fn number_at(s: &[u16], at: usize) -> Option<Reading>
    requires { at ≤ length s.now }
    ensures { Answers kept s.now at (map_read number_part (digits_of 0 (drop at s.now))) result }
{
    let (v, next) = digits(s, at)?;
    Some((Some(Part::constant(v)), next))
}

// The digit behind `x`.
#[tactic(auto, unfolding(crate::specs::bridge::Text::map_read), using(crate::proofs::Laws::Symbols::positions))]
fn place_at(s: &[u16], at: usize) -> Option<Reading>
    requires { at ≤ length s.now }
    ensures { Answers kept s.now at (map_read place_part (place_digit (drop at s.now))) result }
{
    match code_at(s, at) {
        c @ 48..=55 => Some((Some(Part::place(usize::from(c - 48))), at + 1)),
        _ => None,
    }
}

// A number, or `x` with its digit, at the place where it begins.
#[tactic(auto, unfolding(crate::specs::bridge::Text::atom), using(crate::proofs::Laws::Places::behind_at))]
fn atom_at(s: &[u16], at: usize) -> Option<Reading>
    requires { at ≤ length s.now }
    ensures { Answers kept s.now at (atom parts (drop at s.now)) result }
{
    match code_at(s, at) {
        120 => place_at(s, at + 1),
        48..=57 => number_at(s, at),
        _ => None,
    }
}

// Two parts with an operator between them.
fn joined(a: Option<Part>, operation: Operation, b: Option<Part>) -> Option<Part>
    ensures { kept result ≡ join parts (character operation) (kept a) (kept b) }
{
    match operation {
        Operation::Plus => plus(a, b),
        Operation::Minus => minus(a, b),
        Operation::Times => times(a, b),
    }
}

#[tactic(auto, using(crate::proofs::Laws::Steps::factors))]
#[cycle(factor_product_sum)]
fn factor(s: &[u16], at: usize, depth: usize) -> Option<Reading>
    requires { at ≤ length s.now }
    ensures { Answers kept s.now at (factor_of parts (within parts depth) (drop at s.now)) result }
{
    let j = skip(s, at);
    if code_at(s, j) != 40 {
        return atom_at(s, j);
    }
    let (part, next) = sum(s, j + 1, depth.checked_sub(1)?)?;
    Some((part, behind(s, next, 41)?))
}

// Products and sums are two loops: one for both would have to be told by a level which items and operators it reads, and be no shorter.
#[tactic(auto, unfolding(crate::specs::bridge::Text::product), using(crate::proofs::Laws::Chains::first_refused))]
#[cycle(factor_product_sum)]
fn product(s: &[u16], at: usize, depth: usize) -> Option<Reading>
    requires { at ≤ length s.now }
    ensures { Answers kept s.now at (product_of parts (within parts depth) (drop at s.now)) result }
{
    let (mut part, mut next) = factor(s, at, depth)?;
    while let Some((operation, right_at)) = star(s, next) {
        let (right, end) = factor(s, right_at, depth)?;
        part = joined(part, operation, right);
        next = end;
    }
    Some((part, next))
}

#[tactic(auto, unfolding(crate::specs::bridge::Text::sum), using(crate::proofs::Laws::Chains::first_refused))]
#[cycle(factor_product_sum)]
fn sum(s: &[u16], at: usize, depth: usize) -> Option<Reading>
    requires { at ≤ length s.now }
    ensures { Answers kept s.now at (sum_of parts (within parts depth) (drop at s.now)) result }
{
    let (mut part, mut next) = product(s, at, depth)?;
    while let Some((operation, right_at)) = sign(s, next) {
        let (right, end) = product(s, right_at, depth)?;
        part = joined(part, operation, right);
        next = end;
    }
    Some((part, next))
}

// The expression at a place of a text, as far as it goes.
#[tactic(auto, using(crate::proofs::Laws::Folds::by_tree))]
pub fn expression(s: &[u16], at: usize) -> Option<Reading>
    requires { at ≤ length s.now }
    ensures { Answers kept s.now at (map_read (fold parts) (expression_of (drop at s.now))) result }
{
    sum(s, at, NESTING)
}
