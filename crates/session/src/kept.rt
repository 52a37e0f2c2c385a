// What is kept between calls, and the test of it.
ghost use Rattle.std.specs.Prelude.{◌&&◌, [], ◌∷◌, ◌≡◌, ◌+◌, ◌*◌, ◌-◌, ◌≤◌, ◌<◌, eqb, leb, length, take, drop};
ghost use Rattle.lists.specs.Lists.{all};
ghost use Rattle.lists.specs.Decide.{all_of};
ghost use Rattle.meaning.specs.Table.{is_first};
ghost use Rattle.meaning.specs.Direct.{limit};
ghost use Rattle.automaton.specs.Sound.{state_count, longest_word, sound};
ghost use Rattle.automaton.specs.Automaton.{from_words};
ghost use Rattle.reckoning.specs.Session.{path, is_at, is_paired, is_left, stands_at, sound_session};
ghost use Rattle.session.specs.Keeping.{together, session_of};
ghost use Rattle.session.specs.bridge.Later.{path_of};

use crate::tally::Tally;
use crate::uses::uses_sound;
use rules::mode::{Mode, is_first};
use words::numbers::StateNo;
use words::read::Machine;

#[derive(Clone, Copy, Debug, PartialEq, Eq)]
pub enum Status {
    Open,
    Closed,
    Stopped,
}

// What a session keeps of the machine. "held characters (the store, others 0)": eight places, and how many of them are in use, as C has them
// within a session.
#[derive(Clone, Copy, Debug, PartialEq, Eq)]
pub struct Kept {
    pub status: Status,
    pub state: StateNo,
    pub held: [u16; 8],
    pub held_count: u16,
    pub received: u64,
    pub tally: Tally,
}

impl Kept {
    // The characters held, "the store".
    pub fn held(&self) -> &[u16]
        requires { self.now.held_count ≤ 8 }
        ensures { result.now ≡ take self.now.held_count self.now.held }
    {
        &self.held[..self.held_count as usize]
    }

    // The places not in use.
    fn others(&self) -> &[u16]
        requires { self.now.held_count ≤ 8 }
        ensures { result.now ≡ drop self.now.held_count self.now.held }
    {
        &self.held[self.held_count as usize..]
    }
}

// "The session gains 33 counts, one a rule and one for the default": how often each was used, a rule by its number, the default as 32; and
// "pairs have a count of their own", at 33. They stand apart, so that a run is lent them and changes them in place.
#[derive(Clone, Copy, Debug, PartialEq, Eq)]
pub struct Session {
    pub kept: Kept,
    pub uses: [u64; 34],
}

// "Fresh: open, all 0."
#[tactic(auto, unfolding(reckoning::specs::Session::fresh, lists::specs::Lists::pad))]
pub fn fresh() -> Session
    ensures { session_of result ≡ Rattle.reckoning.specs.Session.fresh }
{
    Session {
        kept: Kept {
            status: Status::Open,
            state: StateNo(0),
            held: [0; 8],
            held_count: 0,
            received: 0,
            tally: Tally {
                produced: 0,
                steps: 0,
            },
        },
        uses: [0; 34],
    }
}

// Where one character leads from a state by a target, "neither through nor to a state whose go equals its end".
fn next_state(machine: Machine<'_>, state: StateNo, c: u16) -> Option<StateNo>
    requires { state.0 < state_count machine.words.all.now }
    ensures { path_of result ≡ path (from_words machine.entry.words.all.now) state.0 (c ∷ []) }
{
    let next = machine.words.target(state, machine.class_of(c))?;
    if machine.words.settled(next) {
        return None;
    }
    Some(next)
}

// Where the held characters lead from state 0.
fn path_to(machine: Machine<'_>, held: &[u16]) -> Option<StateNo>
    ensures { path_of result ≡ path (from_words machine.entry.words.all.now) 0 held.now }
{
    let mut state = StateNo(0);
    for c in held {
        state = next_state(machine, state, *c)?;
    }
    Some(state)
}

// The held characters lead to the state.
fn leads_to(machine: Machine<'_>, held: &[u16], state: StateNo) -> bool
    ensures { result ≡ is_at state.0 (path (from_words machine.entry.words.all.now) 0 held.now) }
{
    path_to(machine, held) == Some(state)
}

// "held places not in use are 0"
fn all_clear(others: &[u16]) -> bool
    ensures { result ≡ all (eqb 0) others.now }
{
    others.iter().all(|c| *c == 0)
}

// "received at most 1,099,511,627,776 and at least held; produced at most E times consumed", and at most eight held.
#[tactic(auto, unfolding(lists::specs::Decide::all_of))]
fn counts_sound(most: u64, count: u64, received: u64, produced: u64) -> bool
    requires { most ≤ 8 }
    ensures { result ≡ all_of (leb received limit ∷ leb count received ∷ leb produced (most * (received - count)) ∷ leb count 8 ∷ []) }
{
    received <= 1099511627776
        && count <= received
        && produced <= most * (received - count)
        && count <= 8
}

// L + 3, the most steps for a character.
fn cost(machine: Machine<'_>) -> u64
    ensures value { result ≡ longest_word machine.entry.words.all.now + 3 }
    ensures bound { result ≤ 11 }
{
    machine.words.longest() as u64 + 3
}

// "where the mark is set, the unit is a first unit and state 0 has no target for it"
fn may_wait(machine: Machine<'_>, unit: u16) -> bool
    ensures { result ≡ (let m = from_words machine.entry.words.all.now in is_paired m.default && (is_first unit && eqb (m.target 0 unit) 0)) }
{
    machine.words.default_mode() == Mode::Paired
        && is_first(unit)
        && machine
            .words
            .target(StateNo(0), machine.class_of(unit))
            .is_none()
}

// "A waiting first unit left by a back is one held character at state 0."
fn is_left(machine: Machine<'_>, held: &[u16], state: StateNo) -> bool
    ensures { result ≡ is_left (from_words machine.entry.words.all.now) state.0 held.now }
{
    matches!(held, [unit] if state == StateNo(0) && may_wait(machine, *unit))
}

// An open session may be in the state and hold the characters.
fn stands_at(machine: Machine<'_>, held: &[u16], state: StateNo) -> bool
    ensures { result ≡ stands_at (from_words machine.entry.words.all.now) state.0 held.now }
{
    leads_to(machine, held, state) || is_left(machine, held, state)
}

// "open, the held characters lead from state 0 to the state, and steps are at most (L + 3) times consumed plus held"
#[tactic(auto, unfolding(lists::specs::Decide::all_of))]
fn open_sound(machine: Machine<'_>, held: &[u16], state: StateNo, steps: u64, consumed: u64) -> bool
    requires { (length held.now ≤ 8) × (consumed ≤ limit) }
    ensures { result ≡ all_of (stands_at (from_words machine.entry.words.all.now) state.0 held.now
        ∷ leb steps ((longest_word machine.entry.words.all.now + 3) * consumed + length held.now)
        ∷ []) }
{
    stands_at(machine, held, state) && steps <= cost(machine) * consumed + held.len() as u64
}

// "closed or stopped, state 0, nothing held, steps at most (L + 3) times (consumed + 1)"
#[tactic(auto, unfolding(lists::specs::Decide::all_of))]
fn ended_sound(machine: Machine<'_>, count: u16, state: StateNo, steps: u64, consumed: u64) -> bool
    requires { consumed ≤ limit }
    ensures { result ≡ all_of (eqb state.0 0
        ∷ eqb count 0
        ∷ leb steps ((longest_word machine.entry.words.all.now + 3) * (consumed + 1))
        ∷ []) }
{
    state == StateNo(0) && count == 0 && steps <= cost(machine) * (consumed + 1)
}

// A session as a call finds it is sound.
pub fn is_sound_session(machine: Machine<'_>, kept: Kept, uses: &[u64; 34]) -> bool
    ensures { result ≡ sound_session machine.entry.words.all.now (session_of (together kept uses.now)) }
{
    let count = kept.held_count as u64;
    if !counts_sound(
        machine.words.expansion() as u64,
        count,
        kept.received,
        kept.tally.produced,
    ) {
        return false;
    }
    let consumed = kept.received - count;
    if !all_clear(kept.others()) || !uses_sound(machine, uses, consumed) {
        return false;
    }
    let steps = kept.tally.steps;
    match kept.status {
        Status::Open => open_sound(machine, kept.held(), kept.state, steps, consumed),
        Status::Closed | Status::Stopped => {
            ended_sound(machine, kept.held_count, kept.state, steps, consumed)
        }
    }
}
