// A typed text to the records of its table, in two passes over the text: the first asks what to answer, the second writes.
ghost use Rattle.std.specs.Prelude.{◌≡◌, length};
ghost use Rattle.meaning.specs.Refusal.{accepted, and_then};
ghost use Rattle.rules.specs.Answers.{outcome_of};
ghost use Rattle.typed.specs.Typed.{FromText};
ghost use Rattle.typed.specs.bridge.Outcome.{text_records};
ghost use Rattle.typed.specs.bridge.Answers.{Written};

use crate::line::feed_lines_past17;
use crate::sink::Records;
use rules::layout::LOADED;
use rules::load::finish_load;
use rules::refusal::Refusal;

// The first pass: 16, then 17, then 2 to 7, and the length in bytes.
fn survey(text: &[u16]) -> Result<usize, Refusal>
    ensures { outcome_of result ≡ and_then (text_records text.now) (λ b. accepted (length b)) }
{
    let mut loaded = [0u16; LOADED];
    let mut nothing = [0u8; 1];
    let mut records = Records::new(&mut loaded, &mut nothing);
    if feed_lines_past17(text, &mut records).is_none() {
        return Err(Refusal::Grammar);
    }
    let Records { sink, loaded, .. } = records;
    if !sink.fine {
        return Err(Refusal::Expression);
    }
    let reader = sink.step?;
    finish_load(reader, loaded)?;
    Ok(sink.count)
}

// The second pass: the records of a text that is accepted and fits.
fn write(text: &[u16], table: &mut [u8])
    ensures { Written text.now table.old table.new }
{
    let mut loaded = [0u16; LOADED];
    feed_lines_past17(text, &mut Records::new(&mut loaded, table));
}

// A text's table records at the start of the lent buffer, and their length in bytes; or the refusal, and nothing is written.
pub fn from_text(text: &[u16], table: &mut [u8]) -> Result<usize, Refusal>
    ensures { FromText text.now table.old (outcome_of result) table.new }
{
    let size = survey(text)?;
    if table.len() < size {
        return Err(Refusal::ShortOutput);
    }
    write(text, table);
    Ok(size)
}
