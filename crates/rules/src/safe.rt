// Refusal 7's test: the least and the greatest value of each output character.
ghost use Rattle.std.specs.Prelude.{◌≡◌, ◌+◌, ◌*◌, ◌^◌, ◌<◌, ◌≤◌, true, false, map, take, drop};
ghost use Rattle.std.specs.Int.RustNames.{unsigned_abs};
ghost use Rattle.meaning.specs.Block.{at, block_size, entry_size};
ghost use Rattle.meaning.specs.Reader.{signed};
ghost use Rattle.meaning.specs.Value.{dot, lowest_of, highest_of, extreme};
ghost use Rattle.meaning.specs.bridge.Flat.{highs_from, ranges_at, pattern_at, safe_output_at, safe_group_at, safe_at};
ghost use Rattle.rules.specs.bridge.Modes.{the_mode};

use crate::layout::{
    BLOCK, DEFAULT_GROUP, ENTRY, HIGHS_FROM, RANGES_FROM, SLOTS_FROM, number_of_halves,
};
use crate::loaded::Loaded;
use crate::pattern::Range;

impl Loaded<'_> {
    // From the lowest to the highest character of a place's ranges, both 0 where there is none.
    fn place_ends(&self, place: usize) -> Range
        requires { place < 33 * 8 }
        ensures lowest { result.lowest ≡ lowest_of (ranges_at self.now.words.now place) }
        ensures highest { result.highest ≡ highest_of (ranges_at self.now.words.now place) }
    {
        let count = usize::from(self.words[SLOTS_FROM + place]);
        if count == 0 {
            return Range {
                lowest: 0,
                highest: 0,
            };
        }
        let mut ends = self.range(place, count - 1);
        for k in (0..count - 1).rev() {
            let range = self.range(place, k);
            ends = Range {
                lowest: range.lowest.min(ends.lowest),
                highest: range.highest.max(ends.highest),
            };
        }
        ends
    }

    // The least and the greatest value of an output character without its constant.
    fn extreme_sums(&self, group: usize, number: usize) -> (i64, i64)
        requires { (group < 33) × (number < 8) }
        ensures least { let loaded = self.now.words.now in
            let size = at loaded (block_size * group) in
            let coefficients = map (signed 16) (take size (drop (block_size * group + 5 + entry_size * number) loaded)) in
            result.0 ≡ dot coefficients (extreme true coefficients (pattern_at loaded group size)) }
        ensures greatest { let loaded = self.now.words.now in
            let size = at loaded (block_size * group) in
            let coefficients = map (signed 16) (take size (drop (block_size * group + 5 + entry_size * number) loaded)) in
            result.1 ≡ dot coefficients (extreme false coefficients (pattern_at loaded group size)) }
        ensures small { (unsigned_abs result.0 ≤ 2 ^ 35) × (unsigned_abs result.1 ≤ 2 ^ 35) }
    {
        let from = BLOCK * group + 5 + ENTRY * number;
        let size = usize::from(self.words[BLOCK * group]);
        let mut least = 0;
        let mut greatest = 0;
        for p in (0..size).rev() {
            let coefficient = i64::from(self.words[from + p].cast_signed());
            let ends = self.place_ends(8 * group + p);
            // below 0 it gives least at the highest character
            let (low, high) = if coefficient < 0 {
                (ends.highest, ends.lowest)
            } else {
                (ends.lowest, ends.highest)
            };
            least += coefficient * i64::from(low);
            greatest += coefficient * i64::from(high);
        }
        (least, greatest)
    }

    // The constant of an output character: its lower half stands in the block, its upper half in a part of its own.
    fn constant_of(&self, group: usize, number: usize) -> u32
        requires { (group < 33) × (number < 8) }
        ensures { let loaded = self.now.words.now in
            result ≡ at loaded (block_size * group + 4 + entry_size * number) + 65536 * at loaded (highs_from + 8 * group + number) }
    {
        number_of_halves(
            self.words[BLOCK * group + 4 + ENTRY * number],
            self.words[HIGHS_FROM + 8 * group + number],
        )
    }

    // The values of an output character are characters at every word that fits. A digit's always are.
    fn output_safe(&self, group: usize, number: usize) -> bool
        requires { (group < 33) × (number < 8) }
        ensures { result ≡ safe_output_at self.now.words.now group number }
    {
        if self.words[BLOCK * group + 3 + ENTRY * number] != 0 {
            return true;
        }
        let constant = i64::from(self.constant_of(group, number).cast_signed());
        let (least, greatest) = self.extreme_sums(group, number);
        0 <= constant + least && constant + greatest <= 65535
    }

    fn group_safe(&self, group: usize) -> bool
        requires { group < 33 }
        ensures { result ≡ safe_group_at self.now.words.now group }
    {
        let outputs = usize::from(self.words[BLOCK * group + 2]);
        for number in 0..outputs {
            if !self.output_safe(group, number) {
                return false;
            }
        }
        true
    }

    // Refusal 7's test of the whole table.
    pub fn all_safe(&self) -> bool
        ensures { result ≡ safe_at self.now.words.now self.now.rules (the_mode self.now.mode) }
    {
        for group in 0..self.rules {
            if !self.group_safe(group) {
                return false;
            }
        }
        !self.mode.is_present() || self.group_safe(DEFAULT_GROUP)
    }
}
