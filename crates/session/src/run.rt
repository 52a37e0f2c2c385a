// The rollback machine's run over machine words. A run that is lent an output without places writes nothing and counts all the same, as a preview
// wants it. Whether the input has ended, and whether the machine is stuck, are facts that the definitions take, and switch between no two runs.
ghost use Rattle.std.specs.Prelude.{cond, [], ◌++◌, ◌≢◌, ◌≡◌, ◌+◌, ◌-◌, ◌≤◌, ◌<◌, T, eqb, length, take, drop};
ghost use Rattle.meaning.specs.Table.{Single, Paired};
ghost use Rattle.meaning.specs.Block.{at, block_output};
ghost use Rattle.automaton.specs.Layout.{word_count};
ghost use Rattle.automaton.specs.Sound.{expansion_word, block_at, mode_at};
ghost use Rattle.reckoning.specs.Machine.{fall};
ghost use Rattle.session.specs.Keeping.{meant_status};
ghost use Rattle.words.specs.bridge.Readings.{word_of};
ghost use Rattle.rules.specs.bridge.Modes.{the_mode};
ghost use Rattle.session.specs.bridge.Counting.{Counted};
ghost use Rattle.session.specs.bridge.Running.{Continue, left_by, Classed, whole, put, begun_at, SomewherePlaced, ReadsOn, lent, Passes, PassesByDefaults, Moves, MovesAt, Takes, LeavesUnit, TakenAlone, Begins, less_steps, fall_of, Emit, Back, Between, Halted, Waits, Stands, accept_now, Fits, Placed, Advances, Beyond, Runnable, RunsTo};

use crate::kept::Status;
use crate::prepared::{Prepared, covered, fill_classes};
use crate::text::Text;
use crate::uses::{PAIR_RULE, count_uses};
use rules::mode::{Mode, is_first, is_pair};
use std::ops::ControlFlow;
use words::numbers::{DEFAULT_RULE, RuleNo, StateNo};
use words::read::Machine;

// A run: the store is the text from `from` on and below `at`. Its status is open on the way, and where it waits.
#[derive(Clone, Copy, Debug, PartialEq, Eq)]
pub struct Ran {
    pub status: Status,
    pub state: StateNo,
    pub from: usize,
    pub at: usize,
    pub count: usize,
    pub steps: u64,
}

// The run between two words: state 0, and an empty store at the place.
fn between(place: usize, count: usize, steps: u64) -> Ran
    ensures { Between place count steps result }
{
    Ran {
        status: Status::Open,
        state: StateNo(0),
        from: place,
        at: place,
        count,
        steps,
    }
}

// The run has begun a word: it read the character at `place`, which leads to the state.
fn begun(state: StateNo, place: usize, count: usize, steps: u64) -> Ran
    requires { (place < 18446744073709551615) × (steps < 18446744073709551615) }
    ensures { result ≡ begun_at state place count steps }
{
    Ran {
        status: Status::Open,
        state,
        from: place,
        at: place + 1,
        count,
        steps: steps + 1,
    }
}

// What a turn leads to: the run goes on, or it has ended.
type Turn = ControlFlow<Ran, Ran>;

// The run ends with an empty store: *stop*, after *back*, or *close*.
fn halted(status: Status, run: Ran, steps: u64) -> Ran
    requires { run.steps + steps < 18446744073709551616 }
    ensures { Halted (meant_status status) (run.steps + steps) run result }
{
    Ran {
        status,
        state: StateNo(0),
        at: run.from,
        steps: run.steps + steps,
        ..run
    }
}

// The run waits.
fn waiting(run: Ran) -> Ran
    ensures { Waits run result }
{
    Ran {
        status: Status::Open,
        ..run
    }
}

// A first unit is left: "the back is counted before the wait".
fn leaving(run: Ran) -> Ran
    requires { (run.from < 18446744073709551615) × (run.steps < 18446744073709551615) }
    ensures { LeavesUnit run result }
{
    Ran {
        status: Status::Open,
        state: StateNo(0),
        at: run.from + 1,
        steps: run.steps + 1,
        ..run
    }
}

// A run without the steps that were counted before: the back of a unit that was left.
fn counted_once(run: Ran, made: u64) -> Ran
    requires { made ≤ run.steps }
    ensures { result ≡ less_steps run made }
{
    Ran {
        steps: run.steps - made,
        ..run
    }
}

// Where a run begins to read: behind the given characters, or before a unit that was left at state 0.
fn beginning(state: StateNo, held: usize) -> usize
    ensures { result ≡ cond (eqb state.0 0) 0 held }
{
    if state.0 == 0 {
        return 0;
    }
    held
}

// How far the machine read on, and whether it is stuck there before a character that has no target. No Option, since state and place are known in
// both cases.
#[derive(Clone, Copy, Debug, PartialEq, Eq)]
pub struct Ahead {
    pub state: StateNo,
    pub at: usize,
    pub stuck: bool,
}

// How many characters from a part's start on the default takes, each alone, and where the next one leads, if it begins a word, or else state 0. No
// Option, since the compiler would work out its case anew for each character.
#[derive(Clone, Copy)]
struct Alone {
    size: usize,
    next: StateNo,
}

// What a roll-back leads to, in the definitions' four cases: nothing is taken, one unit is, a pair is, or a first unit waits.
#[derive(Clone, Copy, Debug, PartialEq, Eq)]
pub enum Fall {
    Nowhere,
    One,
    Pair,
    Keep,
}

// What it leads to under the mark: "A first unit with nothing readable after it waits, and at the input's end it is treated alone."
fn fall_marked(text: &Text<'_>, ended: bool, place: usize) -> Fall
    requires { place < length (whole text.now) }
    ensures { fall_of result ≡ fall Paired ended (drop place (whole text.now)) }
{
    let unit = text.character(place);
    if place + 1 < text.len() {
        if is_pair(unit, text.character(place + 1)) {
            return Fall::Pair;
        }
        return Fall::One;
    }
    if ended {
        return Fall::One;
    }
    if is_first(unit) {
        return Fall::Keep;
    }
    Fall::One
}

// What a roll-back leads to, of the text from `place` on.
fn fall_at(mode: Mode, text: &Text<'_>, ended: bool, place: usize) -> Fall
    requires { place < length (whole text.now) }
    ensures { fall_of result ≡ fall (the_mode mode) ended (drop place (whole text.now)) }
{
    match mode {
        Mode::Absent => Fall::Nowhere,
        Mode::Single => Fall::One,
        Mode::Paired => fall_marked(text, ended, place),
    }
}

// A pair of the text goes to `output` from `count` on, "both unchanged"; the count after it. Where there is no output, it is only counted.
fn write_pair(text: &Text<'_>, place: usize, output: &mut [u16], count: usize) -> usize
    requires place_in_bounds { (place + 2 ≤ length (whole text.now)) × (place + 2 < 18446744073709551616) }
    requires count_in_bounds { 1 ≤ length output.old → count + 2 ≤ length output.old }
    requires count_bound { count + 8 < 18446744073709551616 }
    ensures value { result ≡ count + 2 }
    ensures output_after { output.new ≡ put output.old count (take 2 (drop place (whole text.now))) }
{
    if output.len() == 0 {
        return count + 2;
    }
    output[count] = text.character(place);
    output[count + 1] = text.character(place + 1);
    count + 2
}

impl<'a> Prepared<'a> {
    // The machine reads on by targets, in the part of the text where the run is.
    fn read_on(&self, text: &Text<'_>, run: Ran) -> Ahead
        requires { SomewherePlaced self.now.machine.words.all.now (whole text.now) run }
        ensures { ReadsOn self.now.machine.words.all.now (whole text.now) run result }
    {
        let part = text.unread(run.at);
        let from = run.at;
        let mut state = run.state;
        for (read, c) in part.iter().enumerate() {
            let Some(next) = self.machine.words.target(state, self.class_in(*c)) else {
                return Ahead {
                    state,
                    at: from + read,
                    stuck: true,
                };
            };
            state = next;
        }
        Ahead {
            state,
            at: from + part.len(),
            stuck: false,
        }
    }

    // The default's output for the character at `place` goes to `output` from `count` on; the count after it.
    fn write_default(&self, part: &[u16], place: usize, output: &mut [u16], count: usize) -> usize
        requires place_in_bounds { (place < length part.now) × (at self.now.machine.words.all.now 5 ≢ 0) }
        requires words_in_bounds { count + at (block_at self.now.machine.words.all.now 32) 2 ≤ length output.old }
        ensures value { result ≡ count + at (block_at self.now.machine.words.all.now 32) 2 }
        ensures output_after { output.new
            ≡ take count output.old
            ++ block_output (block_at self.now.machine.words.all.now 32) (take 1 (drop place part.now))
            ++ drop (count + at (block_at self.now.machine.words.all.now 32) 2) output.old }
    {
        let number = self.machine.words.group_outputs(DEFAULT_RULE);
        let word = &part[place..place + 1];
        // nearly every default writes one character
        if number == 1 {
            output[count] = self.machine.words.entry_value(DEFAULT_RULE, 0, word);
            return count + 1;
        }
        for j in 0..number {
            output[count + j] = self.machine.words.entry_value(DEFAULT_RULE, j, word);
        }
        count + number
    }

    // The default for the character at `place`; the count after it. Where there is no output, it is only counted.
    fn emit_default(&self, part: &[u16], place: usize, output: &mut [u16], count: usize) -> usize
        requires place_in_bounds { (place < length part.now) × (at self.now.machine.words.all.now 5 ≢ 0) }
        requires words_in_bounds { 1 ≤ length output.old → count + at (block_at self.now.machine.words.all.now 32) 2 ≤ length output.old }
        requires count_bound { count + 8 < 18446744073709551616 }
        ensures value { result ≡ count + at (block_at self.now.machine.words.all.now 32) 2 }
        ensures output_after { output.new
            ≡ put output.old count (block_output (block_at self.now.machine.words.all.now 32) (take 1 (drop place part.now))) }
    {
        if output.len() == 0 {
            return count + self.machine.words.group_outputs(DEFAULT_RULE);
        }
        self.write_default(part, place, output, count)
    }

    // How many characters from the part's start on the default takes, each alone: up to one that begins a word, or under the mark up to a first unit.
    // What they write is counted by the caller, once for all of them, so that for each character there is the search alone.
    fn taken_alone<const MARKED: bool>(&self, part: &[u16]) -> Alone
        ensures taken { (result.size ≤ length part.now) × TakenAlone self.now.machine.words.all.now MARKED part.now result.size }
        ensures begins { Begins self.now.machine.words.all.now part.now result.size result.next }
    {
        for (size, c) in part.iter().enumerate() {
            if MARKED && is_first(*c) {
                return Alone {
                    size,
                    next: StateNo(0),
                };
            }
            let class = self.class_between(*c);
            if let Some(next) = self.machine.words.target(StateNo(0), class) {
                return Alone { size, next };
            }
        }
        Alone {
            size: part.len(),
            next: StateNo(0),
        }
    }

    // Between two words the default takes each character that has no target; without an output these are only counted, all at once.
    fn count_defaults<const MARKED: bool>(&self, text: &Text<'_>, run: Ran) -> Ran
        requires mode { mode_at self.now.machine.words.all.now ≡ cond MARKED Paired Single }
        requires placed { Placed self.now.machine.words.all.now (whole text.now) 0 run × (run.from ≡ run.at) }
        ensures passes_by_defaults { PassesByDefaults self.now.machine.words.all.now (whole text.now) run [] result [] }
        ensures beyond { Beyond run [] result [] }
    {
        let part = text.unread(run.at);
        let alone = self.taken_alone::<MARKED>(part);
        let place = run.at + alone.size;
        let count = run.count + alone.size * self.machine.words.group_outputs(DEFAULT_RULE);
        let steps = run.steps + 3 * alone.size as u64;
        if alone.next.0 == 0 {
            return between(place, count, steps);
        }
        begun(alone.next, place, count, steps)
    }

    // Between two words the default is emitted for each character that has no target, in the part of the text where the run is; under the mark up to
    // a first unit, which may be one of a pair. A character that has a target is read, so that its target is looked up once.
    fn emit_defaults<const MARKED: bool>(
        &self,
        text: &Text<'_>,
        run: Ran,
        output: &mut [u16],
    ) -> Ran
        requires mode { mode_at self.now.machine.words.all.now ≡ cond MARKED Paired Single }
        requires placed { Placed self.now.machine.words.all.now (whole text.now) (length output.old) run × (run.from ≡ run.at) }
        ensures passes_by_defaults { PassesByDefaults self.now.machine.words.all.now (whole text.now) run output.old result output.new }
        ensures beyond { Beyond run output.old result output.new }
    {
        if output.len() == 0 {
            return self.count_defaults::<MARKED>(text, run);
        }
        let part = text.unread(run.at);
        let from = run.at;
        let steps = run.steps;
        let mut count = run.count;
        for (read, c) in part.iter().enumerate() {
            if MARKED && is_first(*c) {
                return between(from + read, count, steps + 3 * read as u64);
            }
            let class = self.class_between(*c);
            if let Some(state) = self.machine.words.target(StateNo(0), class) {
                return begun(state, from + read, count, steps + 3 * read as u64);
            }
            count = self.write_default(part, read, output, count);
        }
        let read = part.len();
        between(from + read, count, steps + 3 * read as u64)
    }

    // A rule's output for the text from `from` on and below `to` goes to `output` from `count` on; the count after it.
    fn write_word(
        &self,
        text: &Text<'_>,
        rule: RuleNo,
        from: usize,
        to: usize,
        output: &mut [u16],
        count: usize,
    ) -> usize
        requires rule_bound { (rule.0 < 33) × (at (block_at self.now.machine.words.all.now rule.0) 2 ≤ 8) }
        requires from_le_to { (from ≤ to) × (to ≤ length (whole text.now)) × (to - from ≤ 8) × (at (block_at self.now.machine.words.all.now rule.0) 0 ≡ to - from) }
        requires rule_in_bounds { count + at (block_at self.now.machine.words.all.now rule.0) 2 ≤ length output.old }
        ensures value { result ≡ count + at (block_at self.now.machine.words.all.now rule.0) 2 }
        ensures output_after { output.new
            ≡ take count output.old
            ++ block_output (block_at self.now.machine.words.all.now rule.0) (take (to - from) (drop from (whole text.now)))
            ++ drop (count + at (block_at self.now.machine.words.all.now rule.0) 2) output.old }
    {
        if from >= text.given.len() {
            let rest = &text.piece[from - text.given.len()..];
            return self.machine.words.write_rule(rule, rest, output, count);
        }
        let mut store = [0u16; 8];
        text.gather(from, to, &mut store);
        self.machine.words.write_rule(rule, &store, output, count)
    }

    // A rule for the text from `from` on and below `to`; the count after it. Where there is no output, it is only counted.
    fn emit(
        &self,
        text: &Text<'_>,
        rule: RuleNo,
        from: usize,
        to: usize,
        output: &mut [u16],
        count: usize,
    ) -> usize
        requires rule_bound { (rule.0 < 33) × (at (block_at self.now.machine.words.all.now rule.0) 2 ≤ 8) }
        requires from_le_to { (from ≤ to) × (to ≤ length (whole text.now)) × (to - from ≤ 8) × (at (block_at self.now.machine.words.all.now rule.0) 0 ≡ to - from) }
        requires rule_in_bounds { 1 ≤ length output.old → count + at (block_at self.now.machine.words.all.now rule.0) 2 ≤ length output.old }
        requires count_bound { count + 8 < 18446744073709551616 }
        ensures value { result ≡ count + at (block_at self.now.machine.words.all.now rule.0) 2 }
        ensures output_after { output.new
            ≡ put output.old count
            (block_output (block_at self.now.machine.words.all.now rule.0) (take (to - from) (drop from (whole text.now)))) }
    {
        if output.len() == 0 {
            return count + self.machine.words.group_outputs(rule);
        }
        self.write_word(text, rule, from, to, output, count)
    }

    // The rule that the machine emits where it has read on: before a character without a target, at the input's end, or waiting.
    fn accept_now(&self, state: StateNo, stuck: bool, ended: bool) -> Option<RuleNo>
        requires { state.0 < 256 }
        ensures { word_of result ≡ accept_now self.now.machine.words.all.now state.0 stuck ended }
    {
        if stuck {
            return self.machine.words.accept_at(state);
        }
        if ended {
            return self.machine.words.accept_at_end(state);
        }
        if self.machine.words.settled(state) {
            return self.machine.words.accept_at(state);
        }
        None
    }

    // *Emit* a rule from the store.
    fn emit_rule(
        &self,
        text: &Text<'_>,
        rule: RuleNo,
        run: Ran,
        uses: &mut [u64; 34],
        output: &mut [u16],
    ) -> Ran
        requires placed { Placed self.now.machine.words.all.now (whole text.now) (length output.old) run × Counted uses.old run.from }
        requires fits { Fits self.now.machine.words.all.now run.state.0 (Emit rule) }
        ensures moves { Moves self.now.machine.words.all.now (whole text.now) (length output.old)
            run (lent output.old uses.old) (Emit rule) (Continue result) (lent output.new uses.new) }
        ensures beyond { Beyond run output.old result output.new }
    {
        let written = self.emit(text, rule, run.from, run.at, output, run.count);
        count_uses(uses, rule, 1);
        between(run.at, written, run.steps + 1)
    }

    // *Take* one and *emit* the default, after *back*.
    fn take_one(&self, text: &Text<'_>, run: Ran, uses: &mut [u64; 34], output: &mut [u16]) -> Ran
        requires placed { Placed self.now.machine.words.all.now (whole text.now) (length output.old) run × Counted uses.old run.from }
        requires from_in_bounds { (run.from < length (whole text.now)) × (at self.now.machine.words.all.now 5 ≢ 0) }
        ensures { Takes self.now.machine.words.all.now (whole text.now) run
            (lent output.old uses.old) 32 1 result (lent output.new uses.new) }
    {
        let part = text.unread(run.from);
        let written = self.emit_default(part, 0, output, run.count);
        count_uses(uses, DEFAULT_RULE, 1);
        between(run.from + 1, written, run.steps + 3)
    }

    // "The pair costs two takes and one emit after the back." It is counted first: else the compiler joins the end of this with that of `take_one`,
    // which each roll-back of an unmarked table would feel.
    fn take_pair(&self, text: &Text<'_>, run: Ran, uses: &mut [u64; 34], output: &mut [u16]) -> Ran
        requires placed { Placed self.now.machine.words.all.now (whole text.now) (length output.old) run × Counted uses.old run.from }
        requires from_in_bounds { (run.from + 2 ≤ length (whole text.now)) × (1 ≤ expansion_word self.now.machine.words.all.now) }
        ensures { Takes self.now.machine.words.all.now (whole text.now) run
            (lent output.old uses.old) 33 2 result (lent output.new uses.new) }
    {
        count_uses(uses, PAIR_RULE, 1);
        let written = write_pair(text, run.from, output, run.count);
        between(run.from + 2, written, run.steps + 4)
    }

    // *Back*, "then with a default *take* one and *emit* the default, without one *stop*"; under the mark a pair is taken whole, or a first unit waits.
    fn roll_back(
        &self,
        text: &Text<'_>,
        ended: bool,
        run: Ran,
        uses: &mut [u64; 34],
        output: &mut [u16],
    ) -> Turn
        requires placed { Placed self.now.machine.words.all.now (whole text.now) (length output.old) run × Counted uses.old run.from }
        requires from_in_bounds { run.from < length (whole text.now) }
        ensures moves_at { MovesAt self.now.machine.words.all.now (whole text.now) ended (length output.old)
            run (lent output.old uses.old) Back result (lent output.new uses.new) }
        ensures beyond { Beyond run output.old (left_by result) output.new }
    {
        match fall_at(self.mode, text, ended, run.from) {
            Fall::Nowhere => Turn::Break(halted(Status::Stopped, run, 2)),
            Fall::One => Turn::Continue(self.take_one(text, run, uses, output)),
            Fall::Pair => Turn::Continue(self.take_pair(text, run, uses, output)),
            Fall::Keep => Turn::Break(leaving(run)),
        }
    }

    // Where the machine has read on and emits no rule: it rolls back before a character without a target, waits, or at the input's end rolls back or
    // closes. The roll-back is called in one place, since the compiler inlines that.
    fn fall_back(
        &self,
        text: &Text<'_>,
        stuck: bool,
        ended: bool,
        run: Ran,
        uses: &mut [u64; 34],
        output: &mut [u16],
    ) -> Turn
        requires placed { Placed self.now.machine.words.all.now (whole text.now) (length output.old) run × Counted uses.old run.from }
        requires stands { Stands self.now.machine.words.all.now (whole text.now) stuck run.state.0 run.at
            × (accept_now self.now.machine.words.all.now run.state.0 stuck ended ≡ 0) }
        ensures advances { Advances self.now.machine.words.all.now (whole text.now) ended (length output.old)
            run (lent output.old uses.old) result (lent output.new uses.new) }
        ensures beyond { Beyond run output.old (left_by result) output.new }
    {
        if !stuck {
            if !ended {
                return Turn::Break(waiting(run));
            }
            if run.from == run.at {
                return Turn::Break(halted(Status::Closed, run, 1));
            }
        }
        self.roll_back(text, ended, run, uses, output)
    }

    // One turn of the machine: it reads on, then emits a rule, rolls back, waits or closes.
    fn turn(
        &self,
        text: &Text<'_>,
        ended: bool,
        run: Ran,
        uses: &mut [u64; 34],
        output: &mut [u16],
    ) -> Turn
        requires placed { Placed self.now.machine.words.all.now (whole text.now) (length output.old) run × Counted uses.old run.from }
        ensures advances { Advances self.now.machine.words.all.now (whole text.now) ended (length output.old)
            run (lent output.old uses.old) result (lent output.new uses.new) }
        ensures beyond { Beyond run output.old (left_by result) output.new }
    {
        let ahead = self.read_on(text, run);
        let read = Ran {
            status: Status::Open,
            state: ahead.state,
            at: ahead.at,
            steps: run.steps + (ahead.at - run.at) as u64,
            ..run
        };
        if !ahead.stuck && ahead.at < text.len() {
            return Turn::Continue(read);
        }
        let Some(rule) = self.accept_now(ahead.state, ahead.stuck, ended) else {
            return self.fall_back(text, ahead.stuck, ended, read, uses, output);
        };
        Turn::Continue(self.emit_rule(text, rule, read, uses, output))
    }

    // Between two words the default is emitted first for characters that begin no word, and counted for them all at once.
    fn pass_defaults(
        &self,
        text: &Text<'_>,
        run: Ran,
        uses: &mut [u64; 34],
        output: &mut [u16],
    ) -> Ran
        requires placed { Placed self.now.machine.words.all.now (whole text.now) (length output.old) run × Counted uses.old run.from }
        ensures passes { Passes self.now.machine.words.all.now (whole text.now) (length output.old)
            run (lent output.old uses.old) result (lent output.new uses.new) }
        ensures counted { Counted uses.new result.from × Beyond run output.old result output.new }
    {
        if run.from != run.at {
            return run;
        }
        let next = match self.mode {
            Mode::Absent => return run,
            Mode::Single => self.emit_defaults::<false>(text, run, output),
            Mode::Paired => self.emit_defaults::<true>(text, run, output),
        };
        count_uses(uses, DEFAULT_RULE, (next.from - run.from) as u64);
        next
    }

    // What the default does between two words comes first, then a turn.
    fn advance(
        &self,
        text: &Text<'_>,
        ended: bool,
        run: Ran,
        uses: &mut [u64; 34],
        output: &mut [u16],
    ) -> Turn
        requires placed { Placed self.now.machine.words.all.now (whole text.now) (length output.old) run × Counted uses.old run.from }
        ensures advances { Advances self.now.machine.words.all.now (whole text.now) ended (length output.old)
            run (lent output.old uses.old) result (lent output.new uses.new) }
        ensures beyond { Beyond run output.old (left_by result) output.new }
    {
        let next = self.pass_defaults(text, run, uses, output);
        self.turn(text, ended, next, uses, output)
    }
}

// The machine's run from a store of the given characters and the state that they lead to, over the piece, until it waits, closes or stops, with
// these classes of the first characters. The default's mode is looked up once, and the text is copied, so that it stays in registers.
fn run_from(
    machine: Machine<'_>,
    classes: &[u16],
    text: &Text<'_>,
    state: StateNo,
    ended: bool,
    uses: &mut [u64; 34],
    output: &mut [u16],
) -> Ran
    requires classed { Classed machine.words.all.now classes.now }
    requires runnable { Runnable machine.words.all.now text.now state.0 (lent output.old uses.old) }
    ensures { RunsTo machine.entry.words.all.now text.now state.0 ended
        (lent output.old uses.old) result (lent output.new uses.new) }
{
    let mode = machine.words.default_mode();
    let prepared = Prepared {
        machine,
        classes,
        mode,
    };
    let text = *text;
    let start = beginning(state, text.given.len());
    let first = Ran {
        status: Status::Open,
        state,
        from: 0,
        at: start,
        count: 0,
        steps: 0,
    };
    let mut turn = Turn::Continue(first);
    loop {
        match turn {
            Turn::Continue(run) => turn = prepared.advance(&text, ended, run, uses, output),
            Turn::Break(ran) => return counted_once(ran, (text.given.len() - start) as u64),
        }
    }
}

// The same run, with the classes of the first characters worked out beforehand: of 256, or for a short piece of as many as it gains from. The
// compiler inlines `run_from` where it is called twice, and not where it is called three times, which a feed of a few characters would feel.
pub fn run_words(
    machine: Machine<'_>,
    text: &Text<'_>,
    state: StateNo,
    ended: bool,
    uses: &mut [u64; 34],
    output: &mut [u16],
) -> Ran
    requires { Runnable machine.words.all.now text.now state.0 (lent output.old uses.old) }
    ensures { RunsTo machine.entry.words.all.now text.now state.0 ended
        (lent output.old uses.old) result (lent output.new uses.new) }
{
    if text.piece.len() >= 128 {
        let mut table = [0u16; 272];
        fill_classes(machine, 256, &mut table);
        return run_from(machine, &table[..256], text, state, ended, uses, output);
    }
    let mut table = [0u16; 80];
    let covered = covered(machine, text.piece.len());
    fill_classes(machine, covered, &mut table);
    run_from(machine, &table[..covered], text, state, ended, uses, output)
}
