// Definition 7's choice, on a loaded table's array.
ghost use Rattle.std.specs.Prelude.{◌≡◌, ◌+◌, ◌*◌, ◌<◌, ◌≤◌, length};
ghost use Rattle.std.specs.Prelude.{None};
ghost use Rattle.lists.specs.Lists.{tab_from};
ghost use Rattle.meaning.specs.Table.{within, in_ranges};
ghost use Rattle.meaning.specs.Block.{at};
ghost use Rattle.meaning.specs.Value.{fits_word};
ghost use Rattle.meaning.specs.Meaning.{fits, starts_pair, or_default, choose};
ghost use Rattle.meaning.specs.bridge.Flat.{slots_from, loaded_size, range_at, ranges_at, group_at, table_at};
ghost use Rattle.rules.specs.bridge.Modes.{the_mode};

use crate::layout::{BLOCK, DEFAULT_GROUP, PAIR_GROUP, RANGES_FROM, SLOTS_FROM};
use crate::loaded::Loaded;
use crate::mode::{Mode, is_pair};

// "the next two characters are such a pair"
fn starts_pair(rest: &[u16]) -> bool
    ensures { result ≡ starts_pair rest.now }
{
    matches!(rest, [first, second, ..] if is_pair(*first, *second))
}

// The choice for the rest of an input where no rule fits: "the default is chosen", and under the mark a pair if one is next. It is the number of a
// group, or none where there is no default.
pub fn fall(mode: Mode, rest: &[u16]) -> Option<usize>
    ensures { result ≡ or_default (the_mode mode) rest.now None }
{
    match mode {
        Mode::Absent => None,
        Mode::Paired if starts_pair(rest) => Some(PAIR_GROUP),
        Mode::Single | Mode::Paired => Some(DEFAULT_GROUP),
    }
}

// The characters from `lowest` to `highest`.
#[derive(Clone, Copy, Debug, PartialEq, Eq)]
pub struct Range {
    pub lowest: u16,
    pub highest: u16,
}

// Range `k` of a place: position p of group g has place 8 g + p.
fn range_of(loaded: &[u16], place: usize, k: usize) -> Range
    requires { (place < 33 * 8) × (k < 4) × (length loaded.now ≡ loaded_size) }
    ensures lowest { result.lowest ≡ (range_at loaded.now place k).lowest }
    ensures highest { result.highest ≡ (range_at loaded.now place k).highest }
{
    let at = RANGES_FROM + 8 * place + 2 * k;
    Range {
        lowest: loaded[at],
        highest: loaded[at + 1],
    }
}

// The character lies in range `k` of a place.
fn in_range(loaded: &[u16], place: usize, k: usize, c: u16) -> bool
    requires { (place < 33 * 8) × (k < 4) × (length loaded.now ≡ loaded_size) }
    ensures { result ≡ within c (range_at loaded.now place k) }
{
    let range = range_of(loaded, place, k);
    range.lowest <= c && c <= range.highest
}

// The character lies in the ranges of a place of a loaded array.
pub fn in_ranges(loaded: &[u16], place: usize, c: u16) -> bool
    requires { (place < 33 * 8) × (length loaded.now ≡ loaded_size) × (at loaded.now (slots_from + place) ≤ 4) }
    ensures { result ≡ in_ranges (ranges_at loaded.now place) c }
{
    let count = usize::from(loaded[SLOTS_FROM + place]);
    // most positions have one range
    if count == 1 {
        return in_range(loaded, place, 0, c);
    }
    for k in 0..count {
        if in_range(loaded, place, k, c) {
            return true;
        }
    }
    false
}

impl Loaded<'_> {
    // Range `k` of a place.
    pub fn range(&self, place: usize, k: usize) -> Range
        requires { (place < 33 * 8) × (k < 4) }
        ensures lowest { result.lowest ≡ (range_at self.now.words.now place k).lowest }
        ensures highest { result.highest ≡ (range_at self.now.words.now place k).highest }
    {
        let words = self.words;
        range_of(words, place, k)
    }

    // The character lies in the ranges of a place.
    pub fn in_ranges(&self, place: usize, c: u16) -> bool
        requires { place < 33 * 8 }
        ensures { result ≡ in_ranges (ranges_at self.now.words.now place) c }
    {
        let words = self.words;
        in_ranges(words, place, c)
    }

    // Each character of the word lies in the ranges of its place; the first one's is `place`.
    fn positions_fit(&self, place: usize, word: &[u16]) -> bool
        requires { place + length word.now ≤ 33 * 8 }
        ensures { result ≡ fits_word (tab_from 0 (length word.now) (λ p. ranges_at self.now.words.now (place + p))) word.now }
    {
        for (p, &c) in word.iter().enumerate() {
            if !self.in_ranges(place + p, c) {
                return false;
            }
        }
        true
    }

    // The group fits the rest of an input.
    fn fits_at(&self, group: usize, rest: &[u16]) -> bool
        requires { group < 33 }
        ensures { result ≡ fits (group_at self.now.words.now group) rest.now }
    {
        let size = usize::from(self.words[BLOCK * group]);
        if rest.len() < size {
            return false;
        }
        if self.words[BLOCK * group + 1] == 1 && size < rest.len() {
            return false;
        }
        self.positions_fit(8 * group, &rest[..size])
    }

    // The number of the group chosen for the rest of an input, or none where no rule fits and there is no default. A rule that is no shorter than the
    // best so far can't win, and is not tried.
    pub fn choose_at(&self, rest: &[u16]) -> Option<usize>
        ensures { result ≡ choose (table_at self.now.words.now self.now.rules (the_mode self.now.mode)) rest.now }
    {
        let mut best = None;
        // above every length
        let mut least = 9;
        for rule in 0..self.rules {
            let size = usize::from(self.words[BLOCK * rule]);
            if size < least && self.fits_at(rule, rest) {
                best = Some(rule);
                least = size;
            }
        }
        // no `or_else`: its contract says nothing of what the closure gives
        match best {
            Some(rule) => Some(rule),
            None => fall(self.mode, rest),
        }
    }
}
