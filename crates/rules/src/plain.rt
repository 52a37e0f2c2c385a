// Plain characters, which begin no rule: where one is next, no rule can fit, and the choice is the default, a pair or nothing.
ghost use Rattle.std.specs.Prelude.{◌≡◌, ℕ, ◌*◌, ◌<◌, ◌≤◌, length};
ghost use Rattle.meaning.specs.Block.{at, block_size};
ghost use Rattle.meaning.specs.Meaning.{choose};
ghost use Rattle.meaning.specs.bridge.Flat.{table_at};
ghost use Rattle.rules.specs.bridge.Modes.{the_mode};
ghost use Rattle.rules.specs.bridge.Plain.{is_plain, Marked};

use crate::loaded::{Accepted, Loaded};
use crate::pattern::fall;

// How many characters can be marked: the first ones, which most texts are made of.
const MARKS: usize = 256;

impl Loaded<'_> {
    // No rule takes the character at its first position.
    fn is_plain(&self, c: u16) -> bool
        ensures { result ≡ is_plain self.now.words.now self.now.rules c }
    {
        for rule in 0..self.rules {
            if self.in_ranges(8 * rule, c) {
                return false;
            }
        }
        true
    }

    // The first characters, each marked if it is plain. For an input with fewer characters than the rules are tried here, none is: that would take
    // longer than it saves.
    pub fn mark_plain(&self, size: usize) -> [bool; MARKS]
        ensures { Marked self.now.words.now self.now.rules result }
    {
        let mut marks = [false; MARKS];
        if size < MARKS * self.rules {
            return marks;
        }
        for (c, mark) in marks.iter_mut().enumerate() {
            *mark = self.is_plain(c as u16);
        }
        marks
    }

    // The group chosen for the rest of an input, at once where the next character is marked.
    pub fn choose_marked(&self, marks: &[bool; MARKS], rest: &[u16]) -> Option<usize>
        requires by_index { (g : ℕ) → g < self.now.rules → 1 ≤ at self.now.words.now (block_size * g) }
        requires rest_bound { 0 < length rest.now }
        requires marked { Marked self.now.words.now self.now.rules marks.now }
        ensures { result ≡ choose (table_at self.now.words.now self.now.rules (the_mode self.now.mode)) rest.now }
    {
        let c = usize::from(rest[0]);
        if c < MARKS && marks[c] {
            return fall(self.mode, rest);
        }
        self.choose_at(rest)
    }
}

impl Accepted<'_> {
    // The same choice of an accepted table, whose rules all have characters.
    pub fn choose_marked(&self, marks: &[bool; MARKS], rest: &[u16]) -> Option<usize>
        requires rest_bound { 0 < length rest.now }
        requires marked { Marked self.now.table.words.now self.now.table.rules marks.now }
        ensures { result ≡ choose (table_at self.now.table.words.now self.now.table.rules (the_mode self.now.table.mode)) rest.now }
    {
        self.table.choose_marked(marks, rest)
    }
}
