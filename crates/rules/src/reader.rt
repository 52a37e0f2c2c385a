// One record after another: what is kept of the table so far, and the refusals 2, 3, 4 and 6 of a record.
#![tactic(auto, unfolding(crate::specs::bridge::Summary::admit, lists::specs::Decide::select))]

ghost use Rattle.std.specs.Prelude.{◌≡◌, ◌+◌, ◌*◌, ◌<◌, ◌≤◌, false, not, ◌&&◌, ◌||◌, length, ◌==◌, nat_le, nat_lt, slice_set};
ghost use Rattle.meaning.specs.Table.{Range};
ghost use Rattle.meaning.specs.Record.{rule, range, output, term, default, hexadecimal, mark_of};
ghost use Rattle.meaning.specs.Block.{bit, block_size, entry_size};
ghost use Rattle.meaning.specs.bridge.Flat.{loaded_size};
ghost use Rattle.rules.specs.Answers.{outcome_of};
ghost use Rattle.rules.specs.bridge.Readings.{record_of};
ghost use Rattle.rules.specs.bridge.Summary.{Fitting, defaulted, every_last, started, ranges_read, gap, is_named, group_number, slot_number, ranged_to, summed_to, range_put, output_put, digit_put, admit, admitted, if_admitted, if_taken};

use crate::layout::{
    BLOCK, DEFAULT_BLOCK, DEFAULT_GROUP, DEFAULT_HIGHEST, DEFAULT_SLOT, ENTRY, HIGHS_FROM, LOADED,
    RANGES_FROM, SLOTS_FROM,
};
use crate::mode::Mode;
use crate::record::Record;
use crate::refusal::Refusal;

// What is kept of the group read last: its length, the positions that have a range, the last position's ranges and the highest character of the
// last of them, the output characters, and the positions that the terms of the last one have named, position p by bit p.
#[derive(Clone, Copy, Debug, PartialEq, Eq)]
pub struct Last {
    pub size: usize,
    pub positions: usize,
    pub slots: usize,
    pub highest: u16,
    pub outputs: usize,
    pub named: usize,
}

// A summary of the table read so far: its last record's kind (0 for none), its rules, its default's mode, and its last group.
#[derive(Clone, Copy, Debug, PartialEq, Eq)]
pub struct Reader {
    pub kind: u8,
    pub rules: usize,
    pub mode: Mode,
    pub last: Last,
}

impl Last {
    // A group that takes every character, as the default does.
    fn every_character() -> Last
        ensures { result ≡ every_last }
    {
        Last {
            size: 1,
            positions: 1,
            slots: 1,
            highest: 65535,
            outputs: 0,
            named: 0,
        }
    }
}

impl Reader {
    // Nothing read yet.
    pub fn start() -> Reader
        ensures { result ≡ started }
    {
        Reader {
            kind: 0,
            rules: 0,
            mode: Mode::Absent,
            last: Last::every_character(),
        }
    }

    // A range may come: after its rule or another range.
    fn ranges_read(self) -> bool
        ensures { result ≡ ranges_read self }
    {
        matches!(self.kind, 1 | 2)
    }

    // A position of the last group has no range yet.
    pub fn has_gap(self) -> bool
        ensures { result ≡ gap self }
    {
        self.ranges_read() && self.last.positions < self.last.size
    }

    // There is a default.
    fn has_default(self) -> bool
        ensures { result ≡ defaulted self }
    {
        self.mode.is_present()
    }

    // The last group's number.
    fn group_number(self) -> usize
        requires { defaulted self ≡ false → 1 ≤ self.rules }
        ensures { result ≡ group_number self }
    {
        if self.has_default() {
            return DEFAULT_GROUP;
        }
        self.rules - 1
    }

    // Refusal 3 of a range: it may not come, its position is not below K, or it is out of order.
    fn range_misplaced(self, position: usize, lowest: u16) -> bool
        requires { position < 256 }
        ensures { result ≡ (not (ranges_read self) || nat_le self.last.size position || nat_lt (position + 1) self.last.positions || (position + 1 == self.last.positions && nat_le lowest self.last.highest)) }
    {
        !self.ranges_read()
            || self.last.size <= position
            || position + 1 < self.last.positions
            || position + 1 == self.last.positions && lowest <= self.last.highest
    }

    // Refusal 6 of a range: its position has four.
    fn position_full(self, position: usize) -> bool
        requires { position < 256 }
        ensures { result ≡ (position + 1 == self.last.positions && self.last.slots == 4) }
    {
        position + 1 == self.last.positions && self.last.slots == 4
    }

    // The number of a range among its position's.
    fn slot_number(self, position: usize) -> usize
        ensures { result ≡ slot_number self position }
    {
        if position == self.last.positions {
            return 0;
        }
        self.last.slots
    }

    // Refusal 3 of a digit: no group has begun, or its position is not below K.
    fn digit_misplaced(self, position: usize) -> bool
        ensures { result ≡ (self.kind == 0 || nat_le self.last.size position) }
    {
        self.kind == 0 || self.last.size <= position
    }

    // Refusal 3 of a term: it may not come, its position is not below K, or a term has named it.
    fn term_misplaced(self, position: usize) -> bool
        requires { self.last.size ≤ 8 }
        ensures { result ≡ (not (self.kind == 3 || self.kind == 4) || nat_le self.last.size position || is_named self.last.named position) }
    {
        !matches!(self.kind, 3 | 4)
            || self.last.size <= position
            || (self.last.named >> position) % 2 == 1
    }

    // A record that changes the ranges of the last group.
    fn ranged(self, positions: usize, slots: usize, highest: u16) -> Reader
        ensures { result ≡ ranged_to self positions slots highest }
    {
        Reader {
            kind: 2,
            last: Last {
                positions,
                slots,
                highest,
                ..self.last
            },
            ..self
        }
    }

    // A record that changes the output characters of the last group, likewise.
    fn summed(self, kind: u8, outputs: usize, named: usize) -> Reader
        ensures { result ≡ summed_to self kind outputs named }
    {
        Reader {
            kind,
            last: Last {
                outputs,
                named,
                ..self.last
            },
            ..self
        }
    }

    // A rule: a new group, its length and whether it is anchored at the start of its block.
    fn on_rule(
        self,
        size: u8,
        anchored: bool,
        loaded: &mut [u16; LOADED],
    ) -> Result<Reader, Refusal>
        requires fitting { Fitting self }
        ensures result_value { outcome_of result ≡ admit self (rule size anchored) }
        ensures loaded_after { loaded.new ≡ if_admitted self (rule size anchored) loaded.old }
    {
        if self.has_default() {
            return Err(Refusal::Place);
        }
        if self.has_gap() {
            return Err(Refusal::Unfilled);
        }
        let rules = self.rules;
        if rules == 32 {
            return Err(Refusal::TooMany);
        }
        let at = BLOCK * rules;
        loaded[at] = size as u16;
        loaded[at + 1] = u16::from(anchored);
        Ok(Reader {
            kind: 1,
            rules: rules + 1,
            mode: Mode::Absent,
            last: Last {
                size: size as usize,
                positions: 0,
                slots: 0,
                highest: 0,
                outputs: 0,
                named: 0,
            },
        })
    }

    // A range of the last rule, at its next position or at the last one again.
    fn on_range(
        self,
        position: u8,
        lowest: u16,
        highest: u16,
        loaded: &mut [u16; LOADED],
    ) -> Result<Reader, Refusal>
        requires fitting { Fitting self }
        ensures result_value { outcome_of result ≡ admit self (range position (record { lowest = lowest; highest = highest })) }
        ensures loaded_after { loaded.new ≡ if_admitted self (range position (record { lowest = lowest; highest = highest })) loaded.old }
    {
        let place = position as usize;
        if self.range_misplaced(place, lowest) {
            return Err(Refusal::Place);
        }
        if self.last.positions < place {
            return Err(Refusal::Unfilled);
        }
        if self.position_full(place) {
            return Err(Refusal::TooMany);
        }
        let slot = self.slot_number(place);
        put_range(self.group_number(), place, slot, lowest, highest, loaded);
        Ok(self.ranged(place + 1, slot + 1, highest))
    }

    // An output character of the last group.
    fn on_output(self, constant: u32, loaded: &mut [u16; LOADED]) -> Result<Reader, Refusal>
        requires fitting { Fitting self }
        ensures result_value { outcome_of result ≡ admit self (output constant) }
        ensures loaded_after { loaded.new ≡ if_admitted self (output constant) loaded.old }
    {
        if self.kind == 0 {
            return Err(Refusal::Place);
        }
        if self.has_gap() {
            return Err(Refusal::Unfilled);
        }
        let outputs = self.last.outputs;
        if outputs == 8 {
            return Err(Refusal::TooMany);
        }
        put_output(self.group_number(), outputs, constant, loaded);
        Ok(self.summed(3, outputs + 1, 0))
    }

    // A hexadecimal digit of the last group, by 4 and 6 as another output character.
    fn on_hexadecimal(
        self,
        position: u8,
        shift: u8,
        loaded: &mut [u16; LOADED],
    ) -> Result<Reader, Refusal>
        requires fitting { Fitting self }
        ensures result_value { outcome_of result ≡ admit self (hexadecimal position shift) }
        ensures loaded_after { loaded.new ≡ if_admitted self (hexadecimal position shift) loaded.old }
    {
        let place = position as usize;
        if self.digit_misplaced(place) {
            return Err(Refusal::Place);
        }
        if self.has_gap() {
            return Err(Refusal::Unfilled);
        }
        let outputs = self.last.outputs;
        if outputs == 8 {
            return Err(Refusal::TooMany);
        }
        put_digit(self.group_number(), outputs, place, shift, loaded);
        Ok(self.summed(6, outputs + 1, 0))
    }

    // A coefficient of the last output character.
    fn on_term(
        self,
        position: u8,
        coefficient: u16,
        loaded: &mut [u16; LOADED],
    ) -> Result<Reader, Refusal>
        requires fitting { Fitting self }
        ensures result_value { outcome_of result ≡ admit self (term position coefficient) }
        ensures loaded_after { loaded.new ≡ if_admitted self (term position coefficient) loaded.old }
    {
        let place = position as usize;
        if self.term_misplaced(place) {
            return Err(Refusal::Place);
        }
        let outputs = self.last.outputs;
        put_term(self.group_number(), outputs - 1, place, coefficient, loaded);
        let bit: usize = 1 << place;
        Ok(self.summed(4, outputs, self.last.named + bit))
    }

    // The default: a group of length 1 whose position takes every character.
    fn on_default(self, marked: bool, loaded: &mut [u16; LOADED]) -> Result<Reader, Refusal>
        ensures result_value { outcome_of result ≡ admit self (default (mark_of marked)) }
        ensures loaded_after { loaded.new ≡ if_admitted self (default (mark_of marked)) loaded.old }
    {
        if self.has_default() {
            return Err(Refusal::Place);
        }
        if self.has_gap() {
            return Err(Refusal::Unfilled);
        }
        loaded[DEFAULT_BLOCK] = 1;
        loaded[DEFAULT_SLOT] = 1;
        loaded[DEFAULT_HIGHEST] = 65535;
        Ok(Reader {
            kind: 5,
            rules: self.rules,
            mode: Mode::from(marked),
            last: Last::every_character(),
        })
    }

    // One record, by 2, 3, 4 and 6. It is inlined with `load_records`.
    #[inline(always)]
    pub fn take_record(
        self,
        record: Option<Record>,
        loaded: &mut [u16; LOADED],
    ) -> Result<Reader, Refusal>
        requires fitting { Fitting self }
        ensures result_value { outcome_of result ≡ admitted self (record_of «record») }
        ensures loaded_after { loaded.new ≡ if_taken self (record_of «record») loaded.old }
    {
        let Some(record) = record else {
            return Err(Refusal::Field);
        };
        match record {
            Record::Rule { size, anchored } => self.on_rule(size, anchored, loaded),
            Record::Range {
                position,
                lowest,
                highest,
            } => self.on_range(position, lowest, highest, loaded),
            Record::Output { constant } => self.on_output(constant, loaded),
            Record::Term {
                position,
                coefficient,
            } => self.on_term(position, coefficient, loaded),
            Record::Default { marked } => self.on_default(marked, loaded),
            Record::Hexadecimal { position, shift } => self.on_hexadecimal(position, shift, loaded),
        }
    }
}

// Range `slot` of a position of a group.
fn put_range(
    group: usize,
    position: usize,
    slot: usize,
    lowest: u16,
    highest: u16,
    loaded: &mut [u16; LOADED],
)
    requires group_bound { (group < 33) × (position < 8) × (slot < 4) }
    ensures { loaded.new ≡ range_put group position slot lowest highest loaded.old }
{
    loaded[SLOTS_FROM + 8 * group + position] = (slot + 1) as u16;
    let at = RANGES_FROM + 64 * group + 8 * position + 2 * slot;
    loaded[at] = lowest;
    loaded[at + 1] = highest;
}

// Output character `number` of a group, with its constant.
fn put_output(group: usize, number: usize, constant: u32, loaded: &mut [u16; LOADED])
    requires group_bound { (group < 33) × (number < 8) }
    ensures { loaded.new ≡ output_put group number constant loaded.old }
{
    loaded[BLOCK * group + 2] = (number + 1) as u16;
    loaded[BLOCK * group + 4 + ENTRY * number] = (constant % 65536) as u16;
    loaded[HIGHS_FROM + 8 * group + number] = (constant / 65536) as u16;
}

// Output character `number` of a group, a digit of the character at a position.
fn put_digit(group: usize, number: usize, position: usize, shift: u8, loaded: &mut [u16; LOADED])
    requires group_bound { (group < 33) × (number < 8) × (position < 8) }
    ensures { loaded.new ≡ digit_put group number position shift loaded.old }
{
    loaded[BLOCK * group + 2] = (number + 1) as u16;
    let at = BLOCK * group + 3 + ENTRY * number;
    loaded[at] = 1;
    loaded[at + 1] = shift as u16;
    loaded[at + 2 + position] = 1;
}

// A coefficient of output character `number` of a group.
fn put_term(
    group: usize,
    number: usize,
    position: usize,
    coefficient: u16,
    loaded: &mut [u16; LOADED],
)
    requires group_bound { (group < 33) × (number < 8) × (position < 8) }
    ensures { loaded.new ≡ slice_set loaded.old (block_size * group + 5 + entry_size * number + position) coefficient }
{
    loaded[BLOCK * group + 5 + ENTRY * number + position] = coefficient;
}
