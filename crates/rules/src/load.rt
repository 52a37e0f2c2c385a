// The table check: one pass over the records loads a table into one array, then the refusals of the table's end.
ghost use Rattle.std.specs.Prelude.{◌≡◌, ◌/◌, ◌%◌, ◌≤◌, false, [], length};
ghost use Rattle.lists.specs.Lists.{pad};
ghost use Rattle.meaning.specs.Reader.{read_table};
ghost use Rattle.rules.specs.bridge.Summary.{gap, take_records, Fitting};
ghost use Rattle.meaning.specs.bridge.Flat.{Flat, loaded_size, safe_at};
ghost use Rattle.rules.specs.bridge.Modes.{the_mode};
ghost use Rattle.rules.specs.Answers.{outcome_of};
ghost use Rattle.rules.specs.bridge.Readings.{end_of, LoadedBy};

use crate::layout::LOADED;
use crate::loaded::Loaded;
use crate::mode::Mode;
use crate::reader::Reader;
use crate::record::Record;
use crate::refusal::Refusal;

// What the check says of a table that it accepts: how many rules it has, and its default's mode.
#[derive(Clone, Copy, Debug, PartialEq, Eq)]
pub struct Load {
    pub rules: usize,
    pub mode: Mode,
}

// Records in turn, "each by 2, 3, 4, 6", behind those that the summary is of. It is inlined, and in it what takes a record: as functions of their
// own they pass the summary through memory at each record, which takes half as many instructions more.
#[inline(always)]
pub fn load_records(
    reader: Reader,
    table: &[u8],
    loaded: &mut [u16; LOADED],
) -> Result<Reader, Refusal>
    requires table_len { length table.now % 8 ≡ 0 }
    requires fitting { Fitting reader }
    ensures answer { outcome_of result ≡ (take_records (length table.now / 8) table.now reader loaded.old).answer }
    ensures array { loaded.new ≡ (take_records (length table.now / 8) table.now reader loaded.old).loaded }
{
    let mut so_far = reader;
    for bytes in table.as_chunks::<8>().0 {
        so_far = so_far.take_record(Record::decode(bytes), loaded)?;
    }
    Ok(so_far)
}

// The refusals of the table's end, 4 and 5, and refusal 7 of the whole table.
pub fn finish_load(reader: Reader, loaded: &[u16]) -> Result<Load, Refusal>
    requires rules_bound { reader.rules ≤ 32 }
    requires flat { gap reader ≡ false → 1 ≤ reader.rules → Flat loaded.now }
    ensures { outcome_of result ≡ end_of reader (safe_at loaded.now reader.rules (the_mode reader.mode)) }
{
    if reader.has_gap() {
        return Err(Refusal::Unfilled);
    }
    let rules = reader.rules;
    if rules == 0 {
        return Err(Refusal::NoRule);
    }
    let mode = reader.mode;
    // the array is one chunk of its length
    let words = &loaded.as_chunks::<LOADED>().0[0];
    let table = Loaded { words, rules, mode };
    if table.all_safe() {
        return Ok(Load { rules, mode });
    }
    Err(Refusal::Value)
}

// The table check, refusals 1 to 7. Into an array of zeros it loads an accepted table.
pub fn load_table(table: &[u8], loaded: &mut [u16; LOADED]) -> Result<Load, Refusal>
    requires { loaded.old ≡ pad loaded_size [] }
    ensures { LoadedBy (read_table table.now) (outcome_of result) loaded.new }
{
    if table.len() % 8 != 0 {
        return Err(Refusal::TableLength);
    }
    let reader = load_records(Reader::start(), table, loaded)?;
    finish_load(reader, loaded)
}
