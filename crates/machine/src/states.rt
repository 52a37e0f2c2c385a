// The loop over states: each state's accepts and targets are noted, and the states that it leads to are added as they are met.
ghost use Rattle.std.specs.Prelude.{None, Some, MatchOption, option_map, cond, slice_set, ◌++◌, ◌≡◌, ℕ, suc, ◌+◌, ◌*◌, ◌^◌, ◌≤◌, ◌<◌, ltb, length, get_or, take, drop};
ghost use Rattle.lists.specs.Lists.{flat_map, pad, or_else};
ghost use Rattle.meaning.specs.Block.{at};
ghost use Rattle.automaton.specs.Classes.{starts};
ghost use Rattle.automaton.specs.States.{initial, accept_of, states};
ghost use Rattle.automaton.specs.Layout.{state_words, target_words, blocks_from, classes_from, states_from, states_size, targets_size, word_count};
ghost use Rattle.automaton.specs.bridge.Build.{state_of, number_in, states_at};
ghost use Rattle.automaton.specs.bridge.Noted.{NotedAt, Kept, Onward};
ghost use Rattle.machine.specs.bridge.Tables.{bare_table};

use crate::sets::{accept_at_end_of, accept_of, accept_word, all_rules, longer_rules};
use rules::loaded::Loaded;
use words::layout::{ACCEPT_FROM, AT_END_FROM, CLASSES_FROM, STATES_FROM, TARGETS_FROM};
use words::numbers::{ClassNo, StateNo};

// The states met so far: how many, and the set of rules of each. Their depths stand in the words, which are lent beside it: if it held them, each
// function would have to promise that they are the same ones.
#[derive(Drop)]
struct Met {
    sets: [u32; 256],
    count: usize,
    ghost few: { count ≤ 256 },
}

impl Met {
    // A state is added with its set, if there is room; its number.
    fn add(&mut self, set: u32) -> Option<StateNo>
        ensures { MatchOption result (256 ≤ self.old.count)
            (λ number. (self.old.count < 256) × (number.0 ≡ self.old.count)
            × (self.new.count ≡ self.old.count + 1) × (self.new.sets ≡ slice_set self.old.sets self.old.count set)) }
    {
        if self.count == 256 {
            return None;
        }
        let number = StateNo(self.count as u16);
        self.sets[self.count] = set;
        self.count += 1;
        Some(number)
    }

    // The number of the state with this depth and set, where it is there already. The states up to `after` have other depths.
    // The latest state is looked at first, since most classes lead there; no state is there twice, so one that is found is the first.
    fn find(&self, words: &[u16], after: StateNo, depth: usize, set: u32) -> Option<StateNo>
        requires after_lt_count { (after.0 < self.now.count) × (word_count ≤ length words.now) }
        requires by_index { (i : ℕ) → i < after.0 + 1 → at words.now (states_from + 3 * i) ≡ depth → ⊥ }
        requires by_index_2 { (i j : ℕ) → i < j → j < self.now.count → at self.now.sets i ≡ at self.now.sets j →
            at words.now (states_from + 3 * i) ≡ at words.now (states_from + 3 * j) → ⊥ }
        ensures number { (n : ℕ) → ((i : ℕ) → i < self.now.count → at self.now.sets i < 2 ^ n) → set < 2 ^ n →
            or_else self.now.count (option_map (λ s. s.0) result)
            ≡ number_in (state_of n depth set) (states_at words.now self.now.sets n self.now.count) }
        ensures below { or_else 0 (option_map (λ s. s.0) result) < self.now.count }
    {
        let first = after.0 as usize + 1;
        for i in (first..self.count).rev() {
            if self.sets[i] == set && words[STATES_FROM + 3 * i] as usize == depth {
                return Some(StateNo(i as u16));
            }
        }
        None
    }
}

// Class `class` of a state that accepts nothing: the target is noted, and a state that is met first is added, if there is room.
fn note_class(
    table: &Loaded<'_>,
    words: &mut [u16],
    met: &mut Met,
    state: StateNo,
    class: ClassNo,
) -> Option<()>
    requires fact { let t = bare_table table.now in
        (state.0 < met.old.count) × (state.0 < length (states t)) × (class.0 < length (starts t)) × (accept_of t (get_or (states t) state.0 (initial t)) ≡ 0) }
    requires noted_at { NotedAt (bare_table table.now) table.now.rules (suc state.0) state.0 class.0 words.old met.old.sets met.old.count }
    ensures { Onward (bare_table table.now) table.now.rules (suc state.0) state.0 (suc class.0)
        words.old words.new met.new.sets met.new.count result }
{
    let s = state.0 as usize;
    let k = class.0 as usize;
    let depth = words[STATES_FROM + 3 * s] as usize;
    let set = longer_rules(table, met.sets[s], depth, words[CLASSES_FROM + k]);
    if set == 0 {
        return Some(());
    }
    let place = TARGETS_FROM + 64 * s + k;
    if let Some(number) = met.find(words, state, depth + 1, set) {
        words[place] = number.0;
        return Some(());
    }
    let number = met.add(set)?;
    words[STATES_FROM + 3 * number.0 as usize] = (depth + 1) as u16;
    words[place] = number.0;
    Some(())
}

// The classes of a state that accepts nothing, if there is room for all states met.
fn note_classes(
    table: &Loaded<'_>,
    classes: usize,
    words: &mut [u16],
    met: &mut Met,
    state: StateNo,
) -> Option<()>
    requires fact { let t = bare_table table.now in
        (classes ≡ length (starts t)) × (state.0 < length (states t)) × (accept_of t (get_or (states t) state.0 (initial t)) ≡ 0) }
    requires noted_at { NotedAt (bare_table table.now) table.now.rules (suc state.0) state.0 0 words.old met.old.sets met.old.count }
    ensures { Onward (bare_table table.now) table.now.rules (suc state.0) (suc state.0) 0
        words.old words.new met.new.sets met.new.count result }
{
    for class in 0..classes {
        note_class(table, words, met, state, ClassNo(class as u16))?;
    }
    Some(())
}

// A state: what it accepts is noted, and where that is nothing at once its classes, if there is room for all states met.
fn note_state(
    table: &Loaded<'_>,
    classes: usize,
    words: &mut [u16],
    met: &mut Met,
    state: StateNo,
) -> Option<()>
    requires fact { let t = bare_table table.now in
        (classes ≡ length (starts t)) × (state.0 < length (states t)) × (state.0 < met.old.count) }
    requires noted_at { NotedAt (bare_table table.now) table.now.rules state.0 state.0 0 words.old met.old.sets met.old.count }
    ensures { Onward (bare_table table.now) table.now.rules (suc state.0) (suc state.0) 0
        words.old words.new met.new.sets met.new.count result }
{
    let s = state.0 as usize;
    let depth = words[STATES_FROM + 3 * s] as usize;
    let set = met.sets[s];
    let loaded = table.words;
    let end = accept_at_end_of(loaded, table.rules, set, depth);
    let accept = accept_of(loaded, table.rules, set, depth);
    words[AT_END_FROM + 3 * s] = accept_word(end);
    words[ACCEPT_FROM + 3 * s] = accept_word(accept);
    match accept {
        Some(_) => Some(()),
        None => note_classes(table, classes, words, met, state),
    }
}

// The words of states and targets, of a table whose class starts stand in place; how many states there are, if no more than 256.
pub fn build_states(table: &Loaded<'_>, classes: usize, words: &mut [u16]) -> Option<usize>
    requires fact { let t = bare_table table.now in
        (classes ≡ length (starts t)) × (classes ≤ 64) × ((k : ℕ) → k < length (starts t) → at words.old (classes_from + k) ≡ get_or (starts t) k 0) }
    requires word_count_in_bounds { (word_count ≤ length words.old) × ((i : ℕ) → states_from ≤ i → i < blocks_from → at words.old i ≡ 0) }
    ensures answer { let t = bare_table table.now in
        result ≡ cond (ltb 256 (length (states t))) None (Some (length (states t))) }
    ensures words { let t = bare_table table.now in
        length (states t) ≤ 256 →
        words.new
        ≡ take states_from words.old ++ pad states_size (flat_map (state_words t) (states t)) ++ pad targets_size (flat_map (target_words t) (states t)) ++ drop blocks_from words.old }
    ensures kept { Kept words.old words.new }
{
    words[STATES_FROM] = 0;
    let mut met = Met {
        sets: [0u32; 256],
        count: 1,
    };
    met.sets[0] = all_rules(table.rules);
    let mut state = StateNo(0);
    // no `for`: there are more states to come, as long as the classes lead to new ones
    while (state.0 as usize) < met.count {
        note_state(table, classes, words, &mut met, state)?;
        state.0 += 1;
    }
    Some(met.count)
}
