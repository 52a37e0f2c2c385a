// Output expressions in square brackets: each is read, brought to constant and coefficients, and its records are fed. An expression that 17 refuses
// ends the table check; the readers past 17 note it and go on, so that what the lent array holds is the check of all records.
ghost use Rattle.std.specs.Prelude.{true, ◌≡◌, ◌≤◌, Some, length, drop};
ghost use Rattle.expression.specs.bridge.Text.{map_read, expression_of, items, bracketed};
ghost use Rattle.expression.specs.bridge.Answers.{kept};
ghost use Rattle.typed.specs.Records.{within17 as is_within17};
ghost use Rattle.typed.specs.bridge.Stream.{feed_terms, feed_part, feed_part_past17, feed_tree, feed_tree_past17, feed_outputs, feed_outputs_past17};
ghost use Rattle.typed.specs.bridge.Answers.{state_of, Streams, SameLoans};

use crate::record::{output_record, term_record};
use crate::sink::Records;
use crate::symbol::{CLOSE, COMMA, OPEN};
use expression::part::Part;
use expression::reader::expression;
use expression::symbol::behind;
use rules::refusal::Refusal;

// The least and the greatest coefficient of signed 16 bits.
const LEAST: i32 = -32768;

const GREATEST: i32 = 32767;

// Each coefficient is in signed 16 bits.
fn within17(part: &Part) -> bool
    ensures { result ≡ is_within17 (Some part.now.numbers) }
{
    part.numbers[1..]
        .iter()
        .all(|k| LEAST <= *k && *k <= GREATEST)
}

// The terms by position, of the coefficients that are not 0.
fn feed_terms(part: &Part, records: &mut Records<'_>)
    requires { is_within17 (Some part.now.numbers) ≡ true }
    ensures state { state_of records.new ≡ feed_terms 0 (drop 1 part.now.numbers) (state_of records.old) }
    ensures same_loans { SameLoans records.old records.new }
{
    for position in 0..8u8 {
        let coefficient = part.numbers[usize::from(position) + 1];
        if coefficient != 0 {
            records.feed(&term_record(position, coefficient as i16));
        }
    }
}

// The records of an output character: its constant, then its terms; or refusal 17, by which the check ends, whatever it said.
fn feed_part(part: &Option<Part>, records: &mut Records<'_>)
    ensures state { state_of records.new ≡ feed_part (kept part.now) (state_of records.old) }
    ensures same_loans { SameLoans records.old records.new }
{
    match part {
        Some(part) if within17(part) => {
            records.feed(&output_record(part.numbers[0]));
            feed_terms(part, records);
        }
        _ => records.sink.step = Err(Refusal::Expression),
    }
}

// One expression.
fn feed_expression(s: &[u16], at: usize, records: &mut Records<'_>) -> Option<usize>
    requires { at ≤ length s.now }
    ensures read { Streams s.now at result (map_read (λ t. feed_tree t (state_of records.old)) (expression_of (drop at s.now))) records.new }
    ensures same_loans { SameLoans records.old records.new }
{
    let (part, next) = expression(s, at)?;
    feed_part(&part, records);
    Some(next)
}

// Expressions with commas between.
fn feed_list(s: &[u16], at: usize, records: &mut Records<'_>) -> Option<usize>
    requires { at ≤ length s.now }
    ensures read { Streams s.now at result (map_read (λ ts. feed_outputs ts (state_of records.old)) (items expression_of (drop at s.now))) records.new }
    ensures same_loans { SameLoans records.old records.new }
{
    let mut next = feed_expression(s, at, records)?;
    // no `for`, since a comma says whether there is one more
    while let Some(more) = behind(s, next, COMMA) {
        next = feed_expression(s, more, records)?;
    }
    Some(next)
}

// "output expressions in square brackets with commas between (or none, as `[]`)"
pub fn feed_outputs(s: &[u16], at: usize, records: &mut Records<'_>) -> Option<usize>
    requires { at ≤ length s.now }
    ensures read { Streams s.now at result (map_read (λ ts. feed_outputs ts (state_of records.old)) (bracketed expression_of (drop at s.now))) records.new }
    ensures same_loans { SameLoans records.old records.new }
{
    let inside = behind(s, at, OPEN)?;
    if let Some(end) = behind(s, inside, CLOSE) {
        return Some(end);
    }
    let listed = feed_list(s, inside, records)?;
    behind(s, listed, CLOSE)
}

// The records of an output character: its constant, then its terms; or refusal 17 is noted, which goes before the table check's.
fn feed_part_past17(part: &Option<Part>, records: &mut Records<'_>)
    ensures state { state_of records.new ≡ feed_part_past17 (kept part.now) (state_of records.old) }
    ensures same_loans { SameLoans records.old records.new }
{
    match part {
        Some(part) if within17(part) => {
            records.feed(&output_record(part.numbers[0]));
            feed_terms(part, records);
        }
        _ => records.sink.fine = false,
    }
}

// One expression, past 17.
fn feed_expression_past17(s: &[u16], at: usize, records: &mut Records<'_>) -> Option<usize>
    requires { at ≤ length s.now }
    ensures read { Streams s.now at result (map_read (λ t. feed_tree_past17 t (state_of records.old)) (expression_of (drop at s.now))) records.new }
    ensures same_loans { SameLoans records.old records.new }
{
    let (part, next) = expression(s, at)?;
    feed_part_past17(&part, records);
    Some(next)
}

// Expressions with commas between, past 17.
fn feed_list_past17(s: &[u16], at: usize, records: &mut Records<'_>) -> Option<usize>
    requires { at ≤ length s.now }
    ensures read { Streams s.now at result (map_read (λ ts. feed_outputs_past17 ts (state_of records.old)) (items expression_of (drop at s.now))) records.new }
    ensures same_loans { SameLoans records.old records.new }
{
    let mut next = feed_expression_past17(s, at, records)?;
    // no `for`, since a comma says whether there is one more
    while let Some(more) = behind(s, next, COMMA) {
        next = feed_expression_past17(s, more, records)?;
    }
    Some(next)
}

// "output expressions in square brackets with commas between (or none, as `[]`)", past 17.
pub fn feed_outputs_past17(s: &[u16], at: usize, records: &mut Records<'_>) -> Option<usize>
    requires { at ≤ length s.now }
    ensures read { Streams s.now at result (map_read (λ ts. feed_outputs_past17 ts (state_of records.old)) (bracketed expression_of (drop at s.now))) records.new }
    ensures same_loans { SameLoans records.old records.new }
{
    let inside = behind(s, at, OPEN)?;
    if let Some(end) = behind(s, inside, CLOSE) {
        return Some(end);
    }
    let listed = feed_list_past17(s, inside, records)?;
    behind(s, listed, CLOSE)
}
