// Lines of a text: what stands before `==>`, its outputs and a semicolon; any number of lines. An expression that 17 refuses ends the table check;
// the readers past 17 note it and go on.
ghost use Rattle.std.specs.Prelude.{◌≤◌, length, drop};
ghost use Rattle.expression.specs.bridge.Text.{map_read};
ghost use Rattle.typed.specs.bridge.Reader.{head_of, line_of, lines_of};
ghost use Rattle.typed.specs.bridge.Stream.{feed_head, feed_line, feed_line_past17, feed_lines, feed_lines_past17};
ghost use Rattle.typed.specs.bridge.Answers.{state_of, Streams, SameLoans};

use crate::output::{feed_outputs, feed_outputs_past17};
use crate::pattern::feed_pattern;
use crate::record::default_record;
use crate::sink::Records;
use crate::symbol::{QUOTE, SEMICOLON, word};
use expression::symbol::{behind, skip};

// What stands before `==>`: a pattern, or "The default's pattern is the bare word `else`."
fn feed_head(s: &[u16], at: usize, records: &mut Records<'_>) -> Option<usize>
    requires { at ≤ length s.now }
    ensures read { Streams s.now at result (map_read (λ h. feed_head h (state_of records.old)) (head_of (drop at s.now))) records.new }
    ensures same_loans { SameLoans records.old records.new }
{
    if let Some(inside) = behind(s, at, QUOTE) {
        return feed_pattern(s, inside, records);
    }
    let next = word(s, at, b"else")?;
    records.feed(&default_record());
    Some(next)
}

// One line.
fn feed_line(s: &[u16], at: usize, records: &mut Records<'_>) -> Option<usize>
    requires { at ≤ length s.now }
    ensures read { Streams s.now at result (map_read (λ l. feed_line l (state_of records.old)) (line_of (drop at s.now))) records.new }
    ensures same_loans { SameLoans records.old records.new }
{
    let head = feed_head(s, at, records)?;
    let arrow = word(s, head, b"==>")?;
    let outputs = feed_outputs(s, arrow, records)?;
    behind(s, outputs, SEMICOLON)
}

// "A text is any number of lines."
pub fn feed_lines(s: &[u16], records: &mut Records<'_>) -> Option<usize>
    ensures read { Streams s.now 0 result (map_read (λ ls. feed_lines ls (state_of records.old)) (lines_of s.now)) records.new }
    ensures same_loans { SameLoans records.old records.new }
{
    let mut at = 0;
    // no `for`, since what is left says whether there is one more
    while skip(s, at) < s.len() {
        at = feed_line(s, at, records)?;
    }
    Some(at)
}

// One line, past 17.
fn feed_line_past17(s: &[u16], at: usize, records: &mut Records<'_>) -> Option<usize>
    requires { at ≤ length s.now }
    ensures read { Streams s.now at result (map_read (λ l. feed_line_past17 l (state_of records.old)) (line_of (drop at s.now))) records.new }
    ensures same_loans { SameLoans records.old records.new }
{
    let head = feed_head(s, at, records)?;
    let arrow = word(s, head, b"==>")?;
    let outputs = feed_outputs_past17(s, arrow, records)?;
    behind(s, outputs, SEMICOLON)
}

// "A text is any number of lines.", past 17.
pub fn feed_lines_past17(s: &[u16], records: &mut Records<'_>) -> Option<usize>
    ensures read { Streams s.now 0 result (map_read (λ ls. feed_lines_past17 ls (state_of records.old)) (lines_of s.now)) records.new }
    ensures same_loans { SameLoans records.old records.new }
{
    let mut at = 0;
    // no `for`, since what is left says whether there is one more
    while skip(s, at) < s.len() {
        at = feed_line_past17(s, at, records)?;
    }
    Some(at)
}
