// Patterns in quotation marks: items of single characters and ranges, whose records are fed.
ghost use Rattle.std.specs.Prelude.{◌≡◌, ◌≤◌, length, drop, eqb};
ghost use Rattle.lists.specs.Lists.{any};
ghost use Rattle.expression.specs.bridge.Text.{map_read};
ghost use Rattle.typed.specs.bridge.Reader.{any_character as any_character_of, plain as plain_of, element as element_of, elements as elements_of, item as item_of, ends_items as items_end, pattern_of};
ghost use Rattle.typed.specs.bridge.Stream.{feed_range, feed_ranges, feed_pattern};
ghost use Rattle.typed.specs.bridge.Answers.{state_of, closing_of, ending_of, Finds, Bounds, Streams, CountsItems, SameLoans};

use crate::record::{range_record, rule_record};
use crate::sink::Records;
use crate::symbol::{BACKSLASH, CLOSE, DASH, DOLLAR, OPEN, QUOTE};
use expression::symbol::code_at;
use rules::refusal::Refusal;

// A single character or a range in brackets.
#[derive(Clone, Copy)]
pub struct Between {
    pub lowest: u16,
    pub highest: u16,
}

// The characters that need a backslash: "`"`, `\`, `[`, `]` and `$` need it in quotes, and `-` in brackets".
const IN_QUOTES: [u16; 5] = [QUOTE, BACKSLASH, OPEN, CLOSE, DOLLAR];

const IN_BRACKETS: [u16; 6] = [DASH, QUOTE, BACKSLASH, OPEN, CLOSE, DOLLAR];

// The next character, whatever it is, and the place behind it.
fn any_character(s: &[u16], at: usize) -> Option<(u16, usize)>
    requires { at ≤ length s.now }
    ensures { Finds s.now at result (any_character_of (drop at s.now)) }
{
    let c = *s.get(at)?;
    Some((c, at + 1))
}

// A character that is not special, or any behind a backslash.
fn plain(s: &[u16], at: usize, special: &[u16]) -> Option<(u16, usize)>
    requires { at ≤ length s.now }
    ensures { Finds s.now at result (plain_of (λ c. any (eqb c) special.now) (drop at s.now)) }
{
    let (c, next) = any_character(s, at)?;
    if c == BACKSLASH {
        return any_character(s, next);
    }
    if special.contains(&c) {
        return None;
    }
    Some((c, next))
}

// A single character, or two with `-` between.
fn element(s: &[u16], at: usize) -> Option<(Between, usize)>
    requires { at ≤ length s.now }
    ensures { Bounds s.now at result (element_of (drop at s.now)) }
{
    let (lowest, next) = plain(s, at, &IN_BRACKETS)?;
    if code_at(s, next) != DASH {
        return Some((
            Between {
                lowest,
                highest: lowest,
            },
            next,
        ));
    }
    let (highest, end) = plain(s, next + 1, &IN_BRACKETS)?;
    Some((Between { lowest, highest }, end))
}

// An element, and its range's record.
fn feed_element(s: &[u16], at: usize, position: u8, records: &mut Records<'_>) -> Option<usize>
    requires { at ≤ length s.now }
    ensures read { Streams s.now at result (map_read (λ x. feed_range position x (state_of records.old)) (element_of (drop at s.now))) records.new }
    ensures same_loans { SameLoans records.old records.new }
{
    let (between, next) = element(s, at)?;
    records.feed(&range_record(position, between.lowest, between.highest));
    Some(next)
}

// The elements of a bracket, and what closes it.
fn feed_elements(s: &[u16], at: usize, position: u8, records: &mut Records<'_>) -> Option<usize>
    requires { at ≤ length s.now }
    ensures read { Streams s.now at result (map_read (λ x. feed_ranges position x (state_of records.old)) (elements_of (drop at s.now))) records.new }
    ensures same_loans { SameLoans records.old records.new }
{
    let mut next = feed_element(s, at, position, records)?;
    // no `for`, since what comes next says whether there is one more
    while code_at(s, next) != CLOSE {
        next = feed_element(s, next, position, records)?;
    }
    Some(next + 1)
}

// "each one character (a blank too) or, in square brackets, one or more single characters or ranges"
fn feed_item(s: &[u16], at: usize, position: u8, records: &mut Records<'_>) -> Option<usize>
    requires { at ≤ length s.now }
    ensures read { Streams s.now at result (map_read (λ x. feed_ranges position x (state_of records.old)) (item_of (drop at s.now))) records.new }
    ensures same_loans { SameLoans records.old records.new }
{
    if code_at(s, at) == OPEN {
        return feed_elements(s, at + 1, position, records);
    }
    let (c, next) = plain(s, at, &IN_QUOTES)?;
    records.feed(&range_record(position, c, c));
    Some(next)
}

// The next character is `"` or `$`, which end the items.
fn ends_items(s: &[u16], at: usize) -> bool
    ensures { result ≡ items_end (drop at s.now) }
{
    matches!(code_at(s, at), QUOTE | DOLLAR)
}

// How many items a pattern has at most.
const MOST_ITEMS: u8 = 8;

// The items of a pattern, at most 8: how many, and the place behind them.
fn feed_items(s: &[u16], at: usize, records: &mut Records<'_>) -> Option<(u8, usize)>
    requires { at ≤ length s.now }
    ensures read { CountsItems s.now at (state_of records.old) result records.new }
    ensures same_loans { SameLoans records.old records.new }
{
    let mut next = at;
    for items in 0..MOST_ITEMS {
        if ends_items(s, next) {
            return Some((items, next));
        }
        next = feed_item(s, next, items, records)?;
    }
    if ends_items(s, next) {
        Some((MOST_ITEMS, next))
    } else {
        None
    }
}

// The closing quotation mark, behind some items: whether they are anchored, and the place behind it.
fn closing(s: &[u16], items: u8, anchored: bool, at: usize) -> Option<(bool, usize)>
    requires { at ≤ length s.now }
    ensures { Finds s.now at result (closing_of items anchored (drop at s.now)) }
{
    if items == 0 || code_at(s, at) != QUOTE {
        return None;
    }
    Some((anchored, at + 1))
}

// "`$` after the last item anchors", and what closes the pattern.
fn ending(s: &[u16], items: u8, at: usize) -> Option<(bool, usize)>
    requires { at ≤ length s.now }
    ensures { Finds s.now at result (ending_of items (drop at s.now)) }
{
    if code_at(s, at) == DOLLAR {
        return closing(s, items, true, at + 1);
    }
    closing(s, items, false, at)
}

// A pattern, from behind its opening quotation mark. It is read twice: first with an idle check, which takes no record, for its length and
// whether it is anchored, which its first record has; then its ranges are fed.
pub fn feed_pattern(s: &[u16], at: usize, records: &mut Records<'_>) -> Option<usize>
    requires { at ≤ length s.now }
    ensures read { Streams s.now at result (map_read (λ q. feed_pattern q (state_of records.old)) (pattern_of (drop at s.now))) records.new }
    ensures same_loans { SameLoans records.old records.new }
{
    let step = records.sink.step;
    records.sink.step = Err(Refusal::Grammar);
    let (items, end) = feed_items(s, at, records)?;
    let (anchored, next) = ending(s, items, end)?;
    records.sink.step = step;
    records.feed(&rule_record(items, anchored));
    feed_items(s, at, records);
    Some(next)
}
