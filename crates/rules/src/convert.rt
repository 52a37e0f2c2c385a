// Direct conversion.
ghost use Rattle.std.specs.Prelude.{◌≡◌, ◌+◌, ◌*◌, ◌<◌, ◌≤◌, max, ◌++◌, length, take, drop, if◌then◌else◌};
ghost use Rattle.meaning.specs.Refusal.{accepted};
ghost use Rattle.meaning.specs.Table.{present, least};
ghost use Rattle.meaning.specs.Block.{at, block_size, blocks_size};
ghost use Rattle.meaning.specs.Meaning.{covered};
ghost use Rattle.meaning.specs.bridge.Flat.{size_at, count_at, expansion_at, flat_conversion, flat_write, flat_text, flat_direct};
ghost use Rattle.meaning.specs.Direct.{over, checked, direct};
ghost use Rattle.rules.specs.Answers.{converted_of, conversion_of, check_of};
ghost use Rattle.rules.specs.bridge.Modes.{the_mode};

use crate::layout::{BLOCK, DEFAULT_OUTPUTS, LOADED, PAIR_GROUP};
use crate::load::{Load, load_table};
use crate::loaded::{Accepted, Loaded};
use crate::mode::Mode;
use crate::output::write_group;
use crate::refusal::Refusal;

// The most characters that a conversion takes.
const LIMIT: usize = 1 << 40;

// All of the input was converted, or nothing was chosen for what is left.
#[derive(Clone, Copy, Debug, PartialEq, Eq)]
pub enum End {
    Closed,
    Stopped,
}

// How a conversion ended, the place where it did, and the characters written.
#[derive(Clone, Copy, Debug, PartialEq, Eq)]
pub struct Conversion {
    pub end: End,
    pub place: usize,
    pub count: usize,
}

// A pair at the start of `rest` goes to `output` from `count` on: the default "writes both unchanged"; the count after it.
fn write_pair(rest: &[u16], output: &mut [u16], count: usize) -> usize
    requires { (2 ≤ length rest.now) × (count + 2 ≤ length output.old) }
    ensures value { result ≡ count + 2 }
    ensures output_after { output.new ≡ take count output.old ++ take 2 rest.now ++ drop (count + 2) output.old }
{
    output[count..count + 2].copy_from_slice(&rest[..2]);
    count + 2
}

// The default's part of E: its output characters, and under the mark "E is then at least 1".
fn default_expansion(blocks: &[u16], mode: Mode) -> usize
    requires { blocks_size ≤ length blocks.now }
    ensures { result ≡ max (least (the_mode mode)) (if present (the_mode mode) then at blocks.now (32 * block_size + 2) else 0) }
{
    let count = usize::from(blocks[DEFAULT_OUTPUTS]);
    match mode {
        Mode::Absent => 0,
        Mode::Single => count,
        Mode::Paired => count.max(1),
    }
}

// E: the greatest number of output characters of the first `rules` groups, and of the default where there is one.
pub fn expansion(blocks: &[u16], rules: usize, mode: Mode) -> usize
    requires { (blocks_size ≤ length blocks.now) × (rules ≤ 32) }
    ensures { result ≡ expansion_at blocks.now rules (the_mode mode) }
{
    let mut most = default_expansion(blocks, mode);
    for group in 0..rules {
        most = most.max(usize::from(blocks[BLOCK * group + 2]));
    }
    most
}

impl Loaded<'_> {
    // E of a loaded table.
    pub fn expansion(&self) -> usize
        ensures { result ≡ expansion_at self.now.words.now self.now.rules (the_mode self.now.mode) }
    {
        let words = self.words;
        expansion(words, self.rules, self.mode)
    }

    // How many characters a group takes; a pair, which has no block, is two.
    fn size_of(&self, group: usize) -> usize
        requires { group < 34 }
        ensures { result ≡ size_at self.now.words.now group }
    {
        if group == PAIR_GROUP {
            return 2;
        }
        usize::from(self.words[BLOCK * group])
    }

    // What the chosen group writes for the characters at the start of `rest` goes to `output` from `count` on; the count after it.
    fn write_chosen(&self, group: usize, rest: &[u16], output: &mut [u16], count: usize) -> usize
        requires group_bound { group < 34 }
        requires group_in_bounds { size_at self.now.words.now group ≤ length rest.now }
        requires group_in_bounds_2 { count + count_at self.now.words.now group ≤ length output.old }
        ensures value { result ≡ count + count_at self.now.words.now group }
        ensures output_after { output.new
            ≡ take count output.old
            ++ flat_write self.now.words.now group (take (size_at self.now.words.now group) rest.now)
            ++ drop (count + count_at self.now.words.now group) output.old }
    {
        if group == PAIR_GROUP {
            return write_pair(rest, output, count);
        }
        let words = self.words;
        write_group(&words[BLOCK * group..], rest, output, count)
    }
}

impl Accepted<'_> {
    // The conversion of an input whose text has room.
    fn convert_flat(&self, input: &[u16], output: &mut [u16]) -> Conversion
        requires input_in_bounds { let t = self.now.table in
            length (flat_text t.words.now (flat_conversion t.words.now t.rules (the_mode t.mode) input.now).log) ≤ length output.old }
        ensures answer { let t = self.now.table in let whole = flat_conversion t.words.now t.rules (the_mode t.mode) input.now in
            converted_of result
            ≡ record { closed = whole.closed; place = covered whole.log; count = length (flat_text t.words.now whole.log) } }
        ensures text { let t = self.now.table in let whole = flat_conversion t.words.now t.rules (the_mode t.mode) input.now in
            output.new ≡ over (flat_text t.words.now whole.log) output.old }
    {
        let marks = self.table.mark_plain(input.len());
        let mut place = 0;
        let mut count = 0;
        // a turn takes as many characters as its group has
        while place < input.len() {
            let rest = &input[place..];
            let Some(group) = self.choose_marked(&marks, rest) else {
                return Conversion {
                    end: End::Stopped,
                    place,
                    count,
                };
            };
            count = self.table.write_chosen(group, rest, output, count);
            place += self.table.size_of(group);
        }
        Conversion {
            end: End::Closed,
            place,
            count,
        }
    }

    // Refusals 14 and 15, then the conversion.
    fn convert(&self, input: &[u16], output: &mut [u16]) -> Result<Conversion, Refusal>
        requires input_len_bound { let t = self.now.table in
            length (flat_text t.words.now (flat_conversion t.words.now t.rules (the_mode t.mode) input.now).log)
            ≤ expansion_at t.words.now t.rules (the_mode t.mode) * length input.now }
        ensures answer { let t = self.now.table in
            conversion_of result ≡ (flat_direct t.words.now t.rules (the_mode t.mode) input.now output.old).answer }
        ensures text { let t = self.now.table in
            output.new ≡ (flat_direct t.words.now t.rules (the_mode t.mode) input.now output.old).output }
    {
        if LIMIT < input.len() {
            return Err(Refusal::TooLong);
        }
        if output.len() < self.table.expansion() * input.len() {
            return Err(Refusal::ShortOutput);
        }
        Ok(self.convert_flat(input, output))
    }
}

// Direct conversion of an input by a table, into an output buffer.
pub fn convert(table: &[u8], input: &[u16], output: &mut [u16]) -> Result<Conversion, Refusal>
    ensures answer { conversion_of result ≡ (direct table.now input.now output.old).answer }
    ensures output { output.new ≡ (direct table.now input.now output.old).output }
{
    let mut words = [0u16; LOADED];
    let Load { rules, mode } = load_table(table, &mut words)?;
    let table = Loaded {
        words: &words,
        rules,
        mode,
    };
    Accepted { table }.convert(input, output)
}

// The table check alone.
pub fn check(table: &[u8]) -> Result<(), Refusal>
    ensures { check_of result ≡ checked table.now }
{
    let mut words = [0u16; LOADED];
    load_table(table, &mut words)?;
    Ok(())
}
