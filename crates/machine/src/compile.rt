// Compiling: a table's machine words, by way of its loaded array.
ghost use Rattle.std.specs.Prelude.{[], ◌∷◌, ◌++◌, ◌≡◌, ◌≤◌, length, take, drop};
ghost use Rattle.lists.specs.Lists.{pad};
ghost use Rattle.meaning.specs.bridge.Flat.{blocks_of, expansion_at};
ghost use Rattle.automaton.specs.Layout.{word_count, blocks_from, classes_from, mode_word};
ghost use Rattle.automaton.specs.Compile as Spec;
ghost use Rattle.rules.specs.Answers.{outcome_of};
ghost use Rattle.rules.specs.bridge.Modes.{the_mode};
ghost use Rattle.machine.specs.bridge.Building.{longest_at, built};

use crate::gather::gather_starts;
use crate::states::build_states;
use rules::layout::{BLOCK, BLOCKS, LOADED};
use rules::load::{Load, load_table};
use rules::loaded::Loaded;
use rules::mode::Mode;
use rules::refusal::Refusal;
use words::layout::{
    BLOCKS_FROM, CLASS_COUNT, DEFAULTED, EXPANSION, LONGEST, RULE_COUNT, STATE_COUNT, WORDS,
};

// The machine words become 0.
fn clear(words: &mut [u16])
    requires { word_count ≤ length words.old }
    ensures { words.new ≡ pad word_count [] ++ drop word_count words.old }
{
    words[..WORDS].fill(0);
}

// The blocks go to the last words.
fn copy_blocks(words: &mut [u16], table: &Loaded<'_>)
    requires { word_count ≤ length words.old }
    ensures { words.new ≡ take blocks_from words.old ++ blocks_of table.now.words.now ++ drop word_count words.old }
{
    let loaded = table.words;
    words[BLOCKS_FROM..WORDS].copy_from_slice(&loaded[..BLOCKS]);
}

// L: the greatest length of the groups.
fn longest_of(table: &Loaded<'_>) -> u16
    ensures { result ≡ longest_at table.now.words.now table.now.rules }
{
    let mut most = 0;
    for group in 0..table.rules {
        most = most.max(table.words[BLOCK * group]);
    }
    most
}

// The word of a default's mode: "Header word 5 is 2 for this mode."
fn mode_word(mode: Mode) -> u16
    ensures { result ≡ mode_word (the_mode mode) }
{
    match mode {
        Mode::Absent => 0,
        Mode::Single => 1,
        Mode::Paired => 2,
    }
}

// The six words of the header.
fn put_header(words: &mut [u16], table: &Loaded<'_>, states: usize, classes: usize)
    requires { (6 ≤ length words.old) × (states ≤ 256) × (classes ≤ 64) }
    ensures { words.new
        ≡ (states ∷ classes ∷ longest_at table.now.words.now table.now.rules
        ∷ expansion_at table.now.words.now table.now.rules (the_mode table.now.mode) ∷ table.now.rules ∷ mode_word (the_mode table.now.mode) ∷ [])
        ++ drop classes_from words.old }
{
    words[STATE_COUNT] = states as u16;
    words[CLASS_COUNT] = classes as u16;
    words[LONGEST] = longest_of(table);
    words[EXPANSION] = table.expansion() as u16;
    words[RULE_COUNT] = table.rules as u16;
    words[DEFAULTED] = mode_word(table.mode);
}

// Refusals 8 and 9, then the words by the array of a table, into words that are 0.
fn build(table: &Loaded<'_>, words: &mut [u16]) -> Result<(), Refusal>
    requires { (word_count ≤ length words.old) × (words.old ≡ pad word_count [] ++ drop word_count words.old) }
    ensures answer { outcome_of result ≡ (built table.now.words.now table.now.rules (the_mode table.now.mode) words.old).answer }
    ensures words { words.new ≡ (built table.now.words.now table.now.rules (the_mode table.now.mode) words.old).words }
{
    let Some(classes) = gather_starts(table, words) else {
        clear(words);
        return Err(Refusal::Classes);
    };
    let Some(states) = build_states(table, classes, words) else {
        clear(words);
        return Err(Refusal::States);
    };
    put_header(words, table, states, classes);
    copy_blocks(words, table);
    Ok(())
}

// Compiling a table into machine words.
pub fn compile(table: &[u8], words: &mut [u16]) -> Result<(), Refusal>
    ensures answer { outcome_of result ≡ (Spec.compile table.now words.old).answer }
    ensures words { words.new ≡ (Spec.compile table.now words.old).words }
{
    if words.len() < WORDS {
        return Err(Refusal::ShortWords);
    }
    clear(words);
    let mut loaded = [0u16; LOADED];
    let Load { rules, mode } = load_table(table, &mut loaded)?;
    let table = Loaded {
        words: &loaded,
        rules,
        mode,
    };
    build(&table, words)
}
