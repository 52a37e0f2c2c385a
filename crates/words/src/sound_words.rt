// "Sound words": the test of words before a machine runs on them, a function for each clause. It looks only at words in use.
ghost use Rattle.std.specs.Prelude.{◌≡◌, suc, pred, ◌+◌, ◌*◌, ◌<◌, ◌≤◌, not, [], ◌∷◌, length, ◌==◌, nat_eq, true, false, MatchOption};
ghost use Rattle.lists.specs.Decide.{all_of, for_below, implies};
ghost use Rattle.meaning.specs.Table.{is_shift};
ghost use Rattle.meaning.specs.Block.{at, block_size, entry_size};
ghost use Rattle.automaton.specs.Sound.{state_count, class_count, rule_count, longest_word, expansion_word, depth_word, accept_at_end_word, accept_word, target_word, block_at, between, used, one_only, sound_entry, sound_header, sound_starts, sound_block, sound_blocks, names_rule, sound_target, sound_state, sound};
ghost use Rattle.words.specs.bridge.Levels.{sound_depth};

use crate::layout::{BLOCKS_FROM, CLASSES_FROM, WORDS};
use crate::numbers::{ClassNo, DEFAULT_RULE, RuleNo, StateNo};
use crate::read::Words;
use rules::layout::{BLOCK, ENTRY};

// Words whose counts and L are within their limits, on which the tests of the other parts stand.
#[derive(Clone, Copy)]
pub struct Headed<'a> {
    pub words: Words<'a>,
    ghost states: { state_count words.all.now ≤ 256 },
    ghost classes: { class_count words.all.now ≤ 64 },
    ghost longest: { longest_word words.all.now ≤ 8 },
    ghost rules: { rule_count words.all.now ≤ 32 },
}

// "a shift of 0, 4, 8 or 12"
fn is_shift(word: u16) -> bool
    ensures { result ≡ is_shift word }
{
    matches!(word, 0 | 4 | 8 | 12)
}

// Of an entry's coefficients just one is not 0, and it is 1: that is, they add up to 1.
fn one_only(coefficients: &[u16]) -> bool
    ensures { result ≡ one_only coefficients.now }
{
    let mut total: u32 = 0;
    for coefficient in coefficients {
        total += u32::from(*coefficient);
        if total > 1 {
            return false;
        }
    }
    total == 1
}

// "a known sort, and a digit entry has one of the four shifts and just one coefficient, of 1, below K"
#[tactic(auto, unfolding(lists::specs::Decide::all_of, automaton::specs::Sound::sound_entry))]
fn entry_sound(block: &[u16], entry: usize) -> bool
    requires { (block_size ≤ length block.now) × (entry < 8) × (at block.now 0 ≤ 8) }
    ensures { result ≡ sound_entry block.now entry }
{
    let from = 3 + ENTRY * entry;
    let size = usize::from(block[0]);
    // by the sort, of which each has its own test
    match block[from] {
        0 => true,
        1 => is_shift(block[from + 1]) && one_only(&block[from + 2..from + 2 + size]),
        _ => false,
    }
}

// The first `count` entries are sums. This is quickly seen, and most blocks write no digit.
fn only_sums(block: &[u16], count: usize) -> bool
    requires { (block_size ≤ length block.now) × (count ≤ 8) }
    ensures { result ≡ for_below count (λ j. nat_eq (at block.now (3 + entry_size * j)) 0) }
{
    for entry in 0..count {
        if block[3 + ENTRY * entry] != 0 {
            return false;
        }
    }
    true
}

// The entries in use, `count` of them.
fn entries_sound(block: &[u16], count: usize) -> bool
    requires { (block_size ≤ length block.now) × (count ≤ 8) × (at block.now 0 ≤ 8) }
    ensures { result ≡ for_below count (sound_entry block.now) }
{
    only_sums(block, count) || (0..count).all(|entry| entry_sound(block, entry))
}

impl<'a> Words<'a> {
    // Those numbers of the header that are at least 1 are within their limits.
    #[tactic(auto, unfolding(lists::specs::Decide::all_of))]
    fn sizes_sound(self) -> bool
        ensures { result ≡ all_of (between 1 256 (state_count self.entry.all.now)
            ∷ between 1 64 (class_count self.entry.all.now)
            ∷ between 1 8 (longest_word self.entry.all.now)
            ∷ between 1 32 (rule_count self.entry.all.now)
            ∷ []) }
    {
        (1..=256).contains(&self.state_count())
            && (1..=64).contains(&self.class_count())
            && (1..=8).contains(&self.longest())
            && (1..=32).contains(&self.rule_count())
    }

    // "The header is within its limits", and under the mark "E is then at least 1, in sound words too".
    #[tactic(auto, unfolding(lists::specs::Decide::all_of, automaton::specs::Sound::sound_header))]
    fn header_sound(self) -> bool
        ensures { result ≡ sound_header self.entry.all.now }
    {
        self.sizes_sound()
            && self.expansion() <= 8
            && self.default_word() <= 2
            && self.default_mode().least_expansion() <= self.expansion()
    }

    // The rule is "below the count" and its "K is the depth".
    #[tactic(auto, unfolding(lists::specs::Decide::all_of, automaton::specs::Sound::names_rule))]
    fn names_rule(self, depth: u16, rule: RuleNo) -> bool
        requires { rule_count self.all.now ≤ 32 }
        ensures { result ≡ names_rule self.entry.all.now depth (suc rule.0) }
    {
        usize::from(rule.0) < self.rule_count() && self.group_size(rule) == usize::from(depth)
    }

    // The state's "end", if it has one, names a rule. It is read as a word, since an option of it takes three steps more for each state.
    pub fn accept_at_end_sound(self, state: StateNo) -> bool
        requires { (rule_count self.all.now ≤ 32) × (state.0 < 256) }
        ensures { result ≡ implies (used (accept_at_end_word self.entry.all.now state.0))
            (names_rule self.entry.all.now (depth_word self.entry.all.now state.0) (accept_at_end_word self.entry.all.now state.0)) }
    {
        match self.accept_at_end_word(state) {
            0 => true,
            word => self.names_rule(self.depth_word(state), RuleNo(word - 1)),
        }
    }

    // The state's "go", if it has one, names an unanchored rule, and "a go comes with an end".
    #[tactic(auto, using(automaton::proofs::Laws::Checking::names_small), unfolding(lists::specs::Decide::all_of))]
    pub fn accept_sound(self, state: StateNo) -> bool
        requires { (rule_count self.all.now ≤ 32) × (state.0 < 256) }
        ensures { result ≡ implies (used (accept_word self.entry.all.now state.0))
            (all_of (names_rule self.entry.all.now (depth_word self.entry.all.now state.0) (accept_word self.entry.all.now state.0)
            ∷ ((at (block_at self.entry.all.now (pred (accept_word self.entry.all.now state.0))) 1) == 0)
            ∷ used (accept_at_end_word self.entry.all.now state.0)
            ∷ [])) }
    {
        // by case, as the clause is an implication
        match self.accept_at(state) {
            None => true,
            Some(rule) => {
                self.names_rule(self.depth_word(state), rule)
                    && self.group_anchored(rule) == 0
                    && self.accept_at_end_word(state) != 0
            }
        }
    }
}

impl<'a> Headed<'a> {
    #[tactic(auto, unfolding(lists::specs::Decide::all_of, automaton::specs::Sound::sound_header))]
    fn new(words: Words<'a>) -> Option<Headed<'a>>
        ensures { MatchOption result (sound_header words.entry.all.now ≡ false) (λ h. (sound_header words.entry.all.now ≡ true) × (expansion_word words.entry.all.now ≤ 8) × (h.words ≡ words.entry)) }
    {
        if !words.header_sound() {
            return None;
        }
        Some(Headed { words })
    }

    // "The class starts begin at 0 and rise strictly."
    #[tactic(auto, unfolding(lists::specs::Decide::all_of, automaton::specs::Sound::sound_starts))]
    fn starts_sound(self) -> bool
        ensures { result ≡ sound_starts self.entry.words.all.now }
    {
        let words = self.words;
        let starts = &words.all[CLASSES_FROM..CLASSES_FROM + words.class_count()];
        words.class_start(ClassNo(0)) == 0 && starts.is_sorted_by(|a, b| *a < *b)
    }

    // K is at least 1 and at most `most`, anchored at most `anchored`, the output count at most E, the entries sound. Block 32 is the default's.
    #[tactic(auto, unfolding(lists::specs::Decide::all_of, automaton::specs::Sound::sound_block))]
    fn block_sound(self, rule: RuleNo, most: usize, anchored: usize) -> bool
        requires { (rule.0 ≤ 32) × (most ≤ 8) × (expansion_word self.words.all.now ≤ 8) }
        ensures { result ≡ sound_block self.entry.words.all.now rule.0 most anchored }
    {
        let words = self.words;
        let outputs = words.group_outputs(rule);
        (1..=most).contains(&words.group_size(rule))
            && words.group_anchored(rule) <= anchored
            && outputs <= words.expansion()
            && entries_sound(
                &words.all[BLOCKS_FROM + BLOCK * usize::from(rule.0)..],
                outputs,
            )
    }

    fn blocks_sound(self) -> bool
        requires { expansion_word self.words.all.now ≤ 8 }
        ensures { result ≡ sound_blocks self.entry.words.all.now }
    {
        let words = self.words;
        let most = words.longest();
        (0..words.rule_count() as u16).all(|rule| self.block_sound(RuleNo(rule), most, 1))
            && (!words.has_default() || self.block_sound(DEFAULT_RULE, 1, 0))
    }

    // "A target exceeds its state's number, is below the state count and lies one deeper."
    #[tactic(auto, unfolding(lists::specs::Decide::all_of, automaton::specs::Sound::sound_target))]
    fn target_sound(self, state: StateNo, target: StateNo) -> bool
        requires { state.0 < 256 }
        ensures { result ≡ sound_target self.entry.words.all.now state.0 target.0 }
    {
        let words = self.words;
        state.0 < target.0
            && usize::from(target.0) < words.state_count()
            && u32::from(words.depth_word(target)) == u32::from(words.depth_word(state)) + 1
    }

    // "State 0 has depth 0, others 1 to L."
    #[tactic(auto, unfolding(crate::specs::bridge::Levels::sound_depth))]
    fn depth_sound(self, state: StateNo) -> bool
        requires { state.0 < 256 }
        ensures { result ≡ sound_depth self.entry.words.all.now state.0 }
    {
        let depth = usize::from(self.words.depth_word(state));
        match state.0 {
            0 => depth == 0,
            _ => (1..=self.words.longest()).contains(&depth),
        }
    }

    // The target by the class, if there is one, is sound, and the state has no go.
    #[tactic(auto, unfolding(lists::specs::Decide::all_of))]
    fn class_target_sound(self, state: StateNo, class: ClassNo) -> bool
        requires { (state.0 < 256) × (class.0 < 64) }
        ensures { result ≡ implies (used (target_word self.entry.words.all.now state.0 class.0))
            (all_of (not (used (accept_word self.entry.words.all.now state.0))
            ∷ sound_target self.entry.words.all.now state.0 (target_word self.entry.words.all.now state.0 class.0)
            ∷ [])) }
    {
        // by case, as the clause is an implication
        match self.words.target(state, class) {
            None => true,
            Some(next) => self.words.accept_word(state) == 0 && self.target_sound(state, next),
        }
    }

    fn targets_sound(self, state: StateNo) -> bool
        requires { state.0 < 256 }
        ensures { result ≡ for_below (class_count self.entry.words.all.now) (λ k.
            implies (used (target_word self.entry.words.all.now state.0 k))
            (all_of (not (used (accept_word self.entry.words.all.now state.0))
            ∷ sound_target self.entry.words.all.now state.0 (target_word self.entry.words.all.now state.0 k)
            ∷ []))) }
    {
        (0..self.words.class_count() as u16).all(|class| self.class_target_sound(
            state,
            ClassNo(class),
        ))
    }

    #[tactic(auto, unfolding(lists::specs::Decide::all_of, automaton::specs::Sound::sound_state, crate::specs::bridge::Levels::sound_depth))]
    fn state_sound(self, state: StateNo) -> bool
        requires { state.0 < 256 }
        ensures { result ≡ sound_state self.entry.words.all.now state.0 }
    {
        self.depth_sound(state)
            && self.words.accept_at_end_sound(state)
            && self.words.accept_sound(state)
            && self.targets_sound(state)
    }

    // The states: those that our compiler wrote pass by their levels, others are tested one by one.
    fn states_sound(self) -> bool
        ensures { result ≡ for_below (state_count self.entry.words.all.now) (sound_state self.entry.words.all.now) }
    {
        self.pass_in_levels()
            || (0..self.words.state_count() as u16).all(|state| self.state_sound(StateNo(state)))
    }
}

// Only sound words make a machine.
#[tactic(auto, unfolding(lists::specs::Decide::all_of, automaton::specs::Sound::sound))]
pub fn is_sound(words: &[u16]) -> bool
    ensures { result ≡ sound words.now }
{
    if words.len() < WORDS {
        return false;
    }
    let Some(headed) = Headed::new(Words { all: words }) else {
        return false;
    };
    headed.starts_sound() && headed.blocks_sound() && headed.states_sound()
}
