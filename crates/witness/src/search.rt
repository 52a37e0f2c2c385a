// The search over compiled words for a state that tells a rule, and for a word that leads to a state.
ghost use Rattle.std.specs.Prelude.{[], ◌≡◌, suc, ◌≤◌, ◌<◌, eqb, length, option_map};
ghost use Rattle.lists.specs.Lists.{pad};
ghost use Rattle.automaton.specs.Sound.{state_count};
ghost use Rattle.words.specs.bridge.Readings.{word_of};
ghost use Rattle.witness.specs.bridge.Search.{telling, leading, class_leading, word_to, state_telling};

use machine::gather::put_in;
use words::numbers::{ClassNo, RuleNo, StateNo};
use words::read::Machine;

// A state's end or go is the rule.
pub fn names(accept: Option<RuleNo>, rule: u32) -> bool
    ensures { result ≡ eqb (word_of accept) (suc rule) }
{
    accept.is_some_and(|accepted| u32::from(accepted.0) == rule)
}

// The rule is the state's end or its go.
fn tells(machine: Machine<'_>, state: StateNo, rule: u32) -> bool
    requires { state.0 < 256 }
    ensures { result ≡ telling machine.entry.words.all.now rule state.0 }
{
    names(machine.words.accept_at_end(state), rule) || names(machine.words.accept_at(state), rule)
}

// The first state that tells the rule.
pub fn state_telling(machine: Machine<'_>, rule: u32) -> Option<StateNo>
    ensures { option_map (λ s. s.0) result ≡ state_telling machine.entry.words.all.now rule }
{
    let states = machine.words.state_count() as u16;
    (0..states)
        .find(|state| tells(machine, StateNo(*state), rule))
        .map(|state| StateNo(state))
}

// The class leads from one state to the other, which is not the first.
fn leads(machine: Machine<'_>, from: StateNo, class: ClassNo, to: StateNo) -> bool
    requires { (from.0 < 256) × (class.0 < 64) × (0 < to.0) }
    ensures { result ≡ leading machine.entry.words.all.now from.0 to.0 class.0 }
{
    machine.words.target(from, class) == Some(to)
}

// The first class that leads from one state to the other.
fn class_leading(machine: Machine<'_>, from: StateNo, to: StateNo) -> Option<ClassNo>
    requires { (from.0 < 256) × (0 < to.0) }
    ensures { option_map (λ k. k.0) result ≡ class_leading machine.entry.words.all.now from.0 to.0 }
{
    let classes = machine.words.class_count() as u16;
    (0..classes)
        .find(|class| leads(machine, from, ClassNo(*class), to))
        .map(|class| ClassNo(class))
}

// A word that leads from state 0 to the state is put into nine places, which are 0; its length. One walk back over the states: each that has a
// class to where the word so far leads from gives it the first such class's start.
pub fn word_to(machine: Machine<'_>, state: StateNo, places: &mut [u16]) -> usize
    requires { (state.0 < state_count machine.words.all.now) × (places.old ≡ pad 9 []) }
    ensures length { (result ≡ length (word_to machine.entry.words.all.now state.0)) × (result ≤ 8) }
    ensures places { places.new ≡ pad 9 (word_to machine.entry.words.all.now state.0) }
{
    let mut length = 0;
    let mut to = state;
    for number in (0..state.0).rev() {
        let from = StateNo(number);
        if let Some(class) = class_leading(machine, from, to) {
            put_in(places, 0, length, machine.words.class_start(class));
            length += 1;
            to = from;
        }
    }
    length
}
