// What the rollback machine reads of machine words. The words hold plain numbers, which become numbers of states, classes and rules here.
ghost use Rattle.std.specs.Prelude.{◌≡◌, ◌+◌, ◌<◌, ◌≤◌, ◌&&◌, T, ◌++◌, length, take, drop, ◌==◌, false, MatchOption};
ghost use Rattle.meaning.specs.Block.{at, entry_value, block_output, block_size};
ghost use Rattle.automaton.specs.Classes.{class_of};
ghost use Rattle.automaton.specs.Layout.{word_count, classes_from};
ghost use Rattle.automaton.specs.Sound.{state_count, class_count, rule_count, longest_word, expansion_word, depth_word, accept_at_end_word, accept_word, target_word, block_at, mode_at, used, sound};
ghost use Rattle.rules.specs.bridge.Modes.{the_mode};
ghost use Rattle.words.specs.bridge.Readings.{word_of, Leads};

use crate::layout::{
    ACCEPT_FROM, AT_END_FROM, BLOCKS_FROM, CLASS_COUNT, CLASSES_FROM, DEFAULTED, EXPANSION,
    LONGEST, RULE_COUNT, STATE_COUNT, STATES_FROM, TARGETS_FROM, WORDS,
};
use crate::numbers::{ClassNo, RuleNo, StateNo};
use crate::sound_words::is_sound;
use rules::layout::BLOCK;
use rules::mode::Mode;

// Machine words: as many as the layout has, or more.
#[derive(Clone, Copy)]
pub struct Words<'a> {
    pub all: &'a [u16],
    ghost whole: { word_count ≤ length all.now },
}

// Sound machine words, on which a machine runs.
#[derive(Clone, Copy)]
pub struct Machine<'a> {
    pub words: Words<'a>,
    ghost sound: { T (sound words.all.now) },
}

// The rule that a word of a state names: its number + 1, or 0 for none.
fn rule_of(word: u16) -> Option<RuleNo>
    ensures { word_of result ≡ word }
{
    if word == 0 {
        return None;
    }
    Some(RuleNo(word - 1))
}

impl<'a> Words<'a> {
    pub fn new(words: &'a [u16]) -> Option<Words<'a>>
        ensures { MatchOption result (length words.now < word_count) (λ w. w.all ≡ words.entry) }
    {
        if words.len() < WORDS {
            return None;
        }
        Some(Words { all: words })
    }

    // How many states there are.
    pub fn state_count(self) -> usize
        ensures { result ≡ state_count self.entry.all.now }
    {
        usize::from(self.all[STATE_COUNT])
    }

    // How many classes there are.
    pub fn class_count(self) -> usize
        ensures { result ≡ class_count self.entry.all.now }
    {
        usize::from(self.all[CLASS_COUNT])
    }

    // L, the longest rule's K.
    pub fn longest(self) -> usize
        ensures { result ≡ longest_word self.entry.all.now }
    {
        usize::from(self.all[LONGEST])
    }

    // E, the most characters that a group writes.
    pub fn expansion(self) -> usize
        ensures { result ≡ expansion_word self.entry.all.now }
    {
        usize::from(self.all[EXPANSION])
    }

    // How many rules there are.
    pub fn rule_count(self) -> usize
        ensures { result ≡ rule_count self.entry.all.now }
    {
        usize::from(self.all[RULE_COUNT])
    }

    // The word for a default: 0 for none, 1 for one, 2 for one with the mark.
    pub fn default_word(self) -> u16
        ensures { result ≡ at self.entry.all.now 5 }
    {
        self.all[DEFAULTED]
    }

    // The table has a default.
    pub fn has_default(self) -> bool
        ensures { result ≡ used (at self.entry.all.now 5) }
    {
        self.default_word() != 0
    }

    // The default's mode: "Header word 5 is 2 for this mode."
    pub fn default_mode(self) -> Mode
        ensures { the_mode result ≡ mode_at self.entry.all.now }
    {
        match self.default_word() {
            0 => Mode::Absent,
            1 => Mode::Single,
            _ => Mode::Paired,
        }
    }

    // The first character of a class.
    pub fn class_start(self, class: ClassNo) -> u16
        requires { class.0 < 64 }
        ensures { result ≡ at self.entry.all.now (classes_from + class.0) }
    {
        self.all[CLASSES_FROM + usize::from(class.0)]
    }

    // Where a class leads from a state, if it leads to a state.
    pub fn target(self, state: StateNo, class: ClassNo) -> Option<StateNo>
        requires { (state.0 < 256) × (class.0 < 64) }
        ensures { Leads result (target_word self.entry.all.now state.0 class.0) }
    {
        match self.all[TARGETS_FROM + 64 * usize::from(state.0) + usize::from(class.0)] {
            0 => None,
            word => Some(StateNo(word)),
        }
    }

    // The depth of a state.
    pub fn depth_word(self, state: StateNo) -> u16
        requires { state.0 < 256 }
        ensures { result ≡ depth_word self.entry.all.now state.0 }
    {
        self.all[STATES_FROM + 3 * usize::from(state.0)]
    }

    // The word of a state for the rule that it accepts if the input ends there.
    pub fn accept_at_end_word(self, state: StateNo) -> u16
        requires { state.0 < 256 }
        ensures { result ≡ accept_at_end_word self.entry.all.now state.0 }
    {
        self.all[AT_END_FROM + 3 * usize::from(state.0)]
    }

    // The word of a state for the rule that it accepts at once.
    pub fn accept_word(self, state: StateNo) -> u16
        requires { state.0 < 256 }
        ensures { result ≡ accept_word self.entry.all.now state.0 }
    {
        self.all[ACCEPT_FROM + 3 * usize::from(state.0)]
    }

    // The rule that a state accepts at once, if there is one.
    pub fn accept_at(self, state: StateNo) -> Option<RuleNo>
        requires { state.0 < 256 }
        ensures { word_of result ≡ accept_word self.entry.all.now state.0 }
    {
        rule_of(self.accept_word(state))
    }

    // The rule that a state accepts if the input ends there, if there is one.
    pub fn accept_at_end(self, state: StateNo) -> Option<RuleNo>
        requires { state.0 < 256 }
        ensures { word_of result ≡ accept_at_end_word self.entry.all.now state.0 }
    {
        rule_of(self.accept_at_end_word(state))
    }

    // The state accepts a rule at once, and no other rule if the input ends there.
    pub fn settled(self, state: StateNo) -> bool
        requires { state.0 < 256 }
        ensures { result ≡ (used (accept_word self.entry.all.now state.0)
            && accept_word self.entry.all.now state.0 == accept_at_end_word self.entry.all.now state.0) }
    {
        let go = self.accept_word(state);
        go != 0 && go == self.accept_at_end_word(state)
    }

    // Word `i` of a rule's block.
    fn block_word(self, rule: RuleNo, i: usize) -> u16
        requires { (rule.0 < 33) × (i < block_size) }
        ensures { result ≡ at (block_at self.entry.all.now rule.0) i }
    {
        self.all[BLOCKS_FROM + BLOCK * usize::from(rule.0) + i]
    }

    // K of a rule.
    pub fn group_size(self, rule: RuleNo) -> usize
        requires { rule.0 < 33 }
        ensures { result ≡ at (block_at self.entry.all.now rule.0) 0 }
    {
        usize::from(self.block_word(rule, 0))
    }

    // Whether a rule is anchored: 1 or 0.
    pub fn group_anchored(self, rule: RuleNo) -> usize
        requires { rule.0 < 33 }
        ensures { result ≡ at (block_at self.entry.all.now rule.0) 1 }
    {
        usize::from(self.block_word(rule, 1))
    }

    // How many characters a rule writes.
    pub fn group_outputs(self, rule: RuleNo) -> usize
        requires { rule.0 < 33 }
        ensures { result ≡ at (block_at self.entry.all.now rule.0) 2 }
    {
        usize::from(self.block_word(rule, 2))
    }

    // What an entry of a rule writes for the rule's characters.
    pub fn entry_value(self, rule: RuleNo, entry: usize, word: &[u16]) -> u16
        requires rule_in_bounds { (rule.0 < 33) × (entry < 8) }
        requires word_len { (length word.now ≡ at (block_at self.all.now rule.0) 0) × (length word.now ≤ 8) }
        ensures { result ≡ entry_value (block_at self.entry.all.now rule.0) entry word.now }
    {
        let all = self.all;
        rules::output::entry_value(
            &all[BLOCKS_FROM + BLOCK * usize::from(rule.0)..],
            entry,
            word,
        )
    }

    // What a rule writes for the first K characters of the store goes to `output` from `count` on; the count after it.
    pub fn write_rule(self, rule: RuleNo, store: &[u16], output: &mut [u16], count: usize) -> usize
        requires rule_number { rule.0 < 33 }
        requires rule_bound { (at (block_at self.all.now rule.0) 0 ≤ 8) × (at (block_at self.all.now rule.0) 2 ≤ 8) }
        requires rule_in_bounds { at (block_at self.all.now rule.0) 0 ≤ length store.now }
        requires rule_in_bounds_2 { count + at (block_at self.all.now rule.0) 2 ≤ length output.old }
        ensures value { result ≡ count + at (block_at self.entry.all.now rule.0) 2 }
        ensures output_after { output.new
            ≡ take count output.old
            ++ block_output (block_at self.entry.all.now rule.0) (take (at (block_at self.entry.all.now rule.0) 0) store.now)
            ++ drop (count + at (block_at self.entry.all.now rule.0) 2) output.old }
    {
        let all = self.all;
        rules::output::write_group(
            &all[BLOCKS_FROM + BLOCK * usize::from(rule.0)..],
            store,
            output,
            count,
        )
    }
}

impl<'a> Machine<'a> {
    pub fn new(words: &'a [u16]) -> Option<Machine<'a>>
        ensures { MatchOption result (sound words.now ≡ false) (λ m. m.words.all ≡ words.entry) }
    {
        if !is_sound(words) {
            return None;
        }
        Some(Machine {
            words: Words { all: words },
        })
    }

    // The class of a character, by halving: the last start not above it is that of a class from `low` on and below `high`. The library's
    // `partition_point` takes a test more, and longer.
    pub fn class_of(self, c: u16) -> ClassNo
        ensures { result.0 ≡ class_of (take (class_count self.entry.words.all.now) (drop classes_from self.entry.words.all.now)) c }
    {
        let mut low = 0;
        let mut high = self.words.class_count();
        while low + 1 < high {
            let middle = (low + high) / 2;
            if self.words.class_start(ClassNo(middle as u16)) <= c {
                low = middle;
            } else {
                high = middle;
            }
        }
        ClassNo(low as u16)
    }
}
