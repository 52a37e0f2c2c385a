// States in levels, as our compiler numbers them: by depth, and no depth is left out. Then the states one deeper than those of a level are the
// next level, so a target is sound where it is 0 or lies in that interval, and a row of targets is tested by one loop without branches. This test
// lets only sound states pass; words in which it doesn't pass take the test of each target by itself.
ghost use Rattle.std.specs.Prelude.{◌≡◌, ℕ, ◌+◌, ◌<◌, ◌≤◌, true, ◌&&◌, if◌then◌else◌, nat_le, nat_lt};
ghost use Rattle.lists.specs.Decide.{for_below};
ghost use Rattle.automaton.specs.Sound.{state_count, class_count, sound_state};
ghost use Rattle.words.specs.bridge.Levels.{Level, Above, row_within, sound_depth};

use crate::layout::TARGETS_FROM;
use crate::numbers::StateNo;
use crate::sound_words::Headed;

// The word where it is none of the `count` numbers from `low` on, else 0.
fn stray(word: u16, low: u16, count: u16) -> u16
    requires { low + count < 65536 }
    ensures { result ≡ (if nat_le low word && nat_lt word (low + count) then 0 else word) }
{
    if word.wrapping_sub(low) < count {
        0
    } else {
        word
    }
}

impl<'a> Headed<'a> {
    // Where the states of a depth end that begin at `from`.
    fn level_end(self, from: usize, depth: u16) -> usize
        requires { from ≤ state_count self.words.all.now }
        ensures { Level self.entry.words.all.now depth from result }
    {
        let states = self.words.state_count();
        for end in from..states {
            if self.words.depth_word(StateNo(end as u16)) != depth {
                return end;
            }
        }
        states
    }

    // Each of the state's first `wide` targets is 0 or from `low` on and below `high`. Those that are not are joined bit by bit, so that the loop has
    // no branch and runs on several words at once.
    fn row_within(self, state: StateNo, wide: usize, low: u16, high: u16) -> bool
        requires { (state.0 < 256) × (wide ≤ 64) × (low ≤ high) }
        ensures { result ≡ row_within self.entry.words.all.now state.0 wide low high }
    {
        let from = TARGETS_FROM + 64 * usize::from(state.0);
        let count = high - low;
        let mut astray = 0;
        for word in &self.words.all[from..from + wide] {
            astray |= stray(*word, low, count);
        }
        astray == 0
    }

    // A state whose depth is sound is sound, if the states one deeper are those from `low` on and below `high`.
    fn passes_in_level(self, state: StateNo, wide: usize, low: u16, high: u16) -> bool
        requires every_class { (class_count self.words.all.now ≤ wide) × (wide ≤ 64) }
        requires above { Above self.words.all.now state.0 low high × (sound_depth self.words.all.now state.0 ≡ true) }
        ensures { result ≡ true → sound_state self.entry.words.all.now state.0 ≡ true }
    {
        if !self.words.accept_at_end_sound(state) {
            return false;
        }
        if self.words.accept_word(state) == 0 {
            return self.row_within(state, wide, low, high);
        }
        // a state with a go has no targets
        self.words.accept_sound(state) && self.row_within(state, wide, low, low)
    }

    // The states from `from` on and below `low` pass, if the states one deeper than each of them are those from `low` on and below `high`.
    fn level_passes(self, from: usize, low: usize, high: usize, wide: usize) -> bool
        requires every_class { (class_count self.words.all.now ≤ wide) × (wide ≤ 64) }
        requires by_index { (s : ℕ) → s < low → from ≤ s → Above self.words.all.now s low high × (sound_depth self.words.all.now s ≡ true) }
        ensures { result ≡ true → (s : ℕ) → s < low → from ≤ s → sound_state self.entry.words.all.now s ≡ true }
    {
        (from..low).all(|state| {
            self.passes_in_level(StateNo(state as u16), wide, low as u16, high as u16)
        })
    }

    // The states are in levels and pass, a level after the other.
    pub fn pass_in_levels(self) -> bool
        ensures { result ≡ true → for_below (state_count self.entry.words.all.now) (sound_state self.entry.words.all.now) ≡ true }
    {
        let wide = (self.words.class_count() + 15) / 16 * 16;
        let mut depth = 0;
        let mut from = 0;
        let mut low = self.level_end(0, 0);
        if low != 1 {
            return false;
        }
        // level by level, since their number shows only on the way
        while from < low {
            if usize::from(depth) > self.words.longest() {
                return false;
            }
            let high = self.level_end(low, depth + 1);
            if !self.level_passes(from, low, high, wide) {
                return false;
            }
            depth += 1;
            from = low;
            low = high;
        }
        low == self.words.state_count()
    }
}
