// "Rules that can never be chosen": the check of a rule number.
ghost use Rattle.std.specs.Prelude.{List, ◌≡◌, ℕ, ◌<◌, option_map};
ghost use Rattle.std.specs.Prelude.{Option};
ghost use Rattle.meaning.specs.Refusal.{Outcome};
ghost use Rattle.automaton.specs.Sound.{state_count};
ghost use Rattle.automaton.specs.Witness.{Checked};
ghost use Rattle.rules.specs.Answers.{outcome_of};
ghost use Rattle.witness.specs.Judged.{input_of, judged};
ghost use Rattle.witness.specs.bridge.Search.{input_at, searched};

use crate::search::{names, state_telling, word_to};
use machine::compile::compile;
use rules::refusal::Refusal;
use words::numbers::StateNo;
use words::read::{Machine, Words};

// An input of up to nine characters; places that are not in use are 0. C gets it in this form.
#[derive(Clone, Copy, Debug, PartialEq, Eq)]
pub struct Input {
    pub length: u16,
    pub characters: [u16; 9],
}

// An input that shows the rule: the word of a state that tells it, and a character more where only its go does.
fn input_at(machine: Machine<'_>, state: StateNo, rule: u32) -> Input
    requires { state.0 < state_count machine.words.all.now }
    ensures { result ≡ input_of (input_at machine.entry.words.all.now rule state.0) }
{
    let mut characters = [0u16; 9];
    let mut length = word_to(machine, state, &mut characters);
    if !names(machine.words.accept_at_end(state), rule) {
        length += 1;
    }
    Input {
        length: length as u16,
        characters,
    }
}

// The search over the words of a compiled table: for a live rule an input on which it is the first choice, and none for a dead one.
fn search(machine: Machine<'_>, rule: u32) -> Option<Input>
    ensures { result ≡ option_map input_of (searched machine.entry.words.all.now rule) }
{
    let Some(state) = state_telling(machine, rule) else {
        return None;
    };
    Some(input_at(machine, state, rule))
}

// The table is compiled into the words, and the rule looked for in them.
pub fn witness(table: &[u8], words: &mut [u16], rule: u32) -> Result<Option<Input>, Refusal>
    ensures { (a : Outcome (Option (List ℕ))) × Checked table.now words.old rule a words.new × (outcome_of result ≡ judged a) }
{
    compile(table, words)?;
    let machine = Machine {
        words: Words { all: words },
    };
    Ok(search(machine, rule))
}
