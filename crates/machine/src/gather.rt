// The class starts of a table, put into their places in the machine words as they are met.
ghost use Rattle.std.specs.Prelude.{◌&&◌, List, [], ◌∷◌, ◌++◌, ◌≡◌, ◌+◌, ◌-◌, ◌*◌, ◌≤◌, ◌<◌, eqb, ltb, length, take, drop};
ghost use Rattle.lists.specs.Lists.{or_else};
ghost use Rattle.meaning.specs.Table.{Range};
ghost use Rattle.meaning.specs.Block.{at, block_size};
ghost use Rattle.meaning.specs.bridge.Flat.{slots_from, loaded_size, ranges_at, pattern_at};
ghost use Rattle.automaton.specs.Layout.{classes_from, word_count};
ghost use Rattle.automaton.specs.Starts.{pattern_ranges, ranges_of, holding, meet, meet_range, meet_ranges, InPlace};
ghost use Rattle.automaton.specs.bridge.Gathered.{place_in, range_from, counted};
ghost use Rattle.machine.specs.bridge.Tables.{bare_table};

use rules::layout::{BLOCK, RANGES_FROM, SLOTS_FROM};
use rules::loaded::Loaded;
use words::layout::CLASSES_FROM;
use words::numbers::RuleNo;

// The place of `start` among the `count` rising words from word 6 on.
fn place_of(words: &[u16], count: usize, start: u16) -> usize
    requires { 6 + count ≤ length words.now }
    ensures { result ≡ place_in start (take count (drop classes_from words.now)) }
{
    let starts = &words[CLASSES_FROM..CLASSES_FROM + count];
    starts.iter().take_while(|x| **x < start).count()
}

// `start` stands at `place`, which is below `end`.
fn stands_at(words: &[u16], place: usize, end: usize, start: u16) -> bool
    requires { end ≤ length words.now }
    ensures { result ≡ ltb place end && eqb (at words.now place) start }
{
    place < end && words[place] == start
}

// The words from `place` to before `end` move up by one, and `start` is put at `place`.
pub fn put_in(words: &mut [u16], place: usize, end: usize, start: u16)
    requires { (place ≤ end) × (end < length words.old) }
    ensures { words.new
        ≡ take place words.old ++ (start ∷ take (end - place) (drop place words.old)) ++ drop (end + 1) words.old }
{
    // not by `copy_within`, for which the library for C would need memmove of its callers, beside memcpy and memset
    let mut carried = start;
    for i in place..end + 1 {
        let next = words[i];
        words[i] = carried;
        carried = next;
    }
}

// `start` is put among the `count` starts met so far, unless it is there; the number after it, where there is room. A count of 65 stands for more
// than fit.
fn insert_start(words: &mut [u16], count: usize, start: u16) -> Option<usize>
    requires { (word_count ≤ length words.old) × (count ≤ 65) }
    ensures met { holding words.new (counted result) ≡ meet start (holding words.old count) }
    ensures few { or_else 0 result ≤ 64 }
{
    if count > 64 {
        return None;
    }
    let place = place_of(words, count, start);
    if stands_at(words, CLASSES_FROM + place, CLASSES_FROM + count, start) {
        return Some(count);
    }
    if count == 64 {
        return None;
    }
    put_in(words, CLASSES_FROM + place, CLASSES_FROM + count, start);
    Some(count + 1)
}

// The range whose two numbers start at `i` is met. After it, whatever ranges were met before, the words from 6 are 0 and the starts met so far,
// rising and without repeats, with zeros behind, until a 65th (request [3]).
fn gather_range(loaded: &[u16], i: usize, words: &mut [u16], count: usize) -> Option<usize>
    requires { (i + 2 ≤ length loaded.now) × (word_count ≤ length words.old) × (count ≤ 65) }
    ensures met { holding words.new (counted result) ≡ meet_range (range_from loaded.now i) (holding words.old count) }
    ensures few { or_else 0 result ≤ 64 }
    ensures in_place { (rs : List Range) → InPlace rs (holding words.old count) →
        InPlace (rs ++ range_from loaded.now i ∷ []) (holding words.new (counted result)) }
{
    let lowest = loaded[i];
    let highest = loaded[i + 1];
    let met = insert_start(words, count, lowest)?;
    match highest.checked_add(1) {
        Some(next) => insert_start(words, met, next),
        None => Some(met),
    }
}

// The ranges of a place are met: position p of group g has place 8 g + p.
fn gather_place(loaded: &[u16], place: usize, words: &mut [u16], count: usize) -> Option<usize>
    requires place_bound { (place < 33 * 8) × (length loaded.now ≡ loaded_size) × (at loaded.now (slots_from + place) ≤ 4) }
    requires word_count_in_bounds { (word_count ≤ length words.old) × (count ≤ 65) }
    ensures met { holding words.new (counted result) ≡ meet_ranges (ranges_at loaded.now place) (holding words.old count) }
    ensures few { or_else 0 result ≤ 64 }
{
    if count > 64 {
        return None;
    }
    let number = loaded[SLOTS_FROM + place] as usize;
    let mut met = count;
    for k in 0..number {
        met = gather_range(loaded, RANGES_FROM + 8 * place + 2 * k, words, met)?;
    }
    Some(met)
}

// A rule's ranges are met, position by position.
fn gather_rule(table: &Loaded<'_>, rule: RuleNo, words: &mut [u16], count: usize) -> Option<usize>
    requires rule_bound { rule.0 < 32 }
    requires word_count_in_bounds { (word_count ≤ length words.old) × (count ≤ 65) }
    ensures met { holding words.new (counted result)
        ≡ meet_ranges (pattern_ranges (pattern_at table.now.words.now rule.0 (at table.now.words.now (block_size * rule.0))))
        (holding words.old count) }
    ensures few { or_else 0 result ≤ 64 }
{
    if count > 64 {
        return None;
    }
    let loaded = table.words;
    let group = rule.0 as usize;
    let size = loaded[BLOCK * group] as usize;
    let mut met = count;
    for p in 0..size {
        met = gather_place(loaded, 8 * group + p, words, met)?;
    }
    Some(met)
}

// The table's ranges are met, rule by rule: their starts go to the words from word 6 on, where 0 stands as the first. Their number, where there
// are no more than 64.
pub fn gather_starts(table: &Loaded<'_>, words: &mut [u16]) -> Option<usize>
    requires { word_count ≤ length words.old }
    ensures met { holding words.new (counted result) ≡ meet_ranges (ranges_of (bare_table table.now)) (holding words.old 1) }
    ensures few { or_else 0 result ≤ 64 }
{
    let mut met = 1;
    for rule in 0..table.rules {
        met = gather_rule(table, RuleNo(rule as u16), words, met)?;
    }
    Some(met)
}
