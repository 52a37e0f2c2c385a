// The C face: each answer as a number; the place, the number of characters written, the status of a chain's first machine, a length and an input
// that shows a rule through pointers. The crate `cobbletwill_c` exports these functions, and include/cobbletwill.h declares them.
#![tactic(auto)]

pub mod chains;
pub mod sessions;

ghost use Rattle.std.specs.Prelude.{◌∷◌, ◌≡◌};
ghost use Rattle.rules.specs.Answers.{outcome_of};
ghost use Rattle.cobbletwill.specs.Face.{check_code};
ghost use Rattle.cobbletwill.specs.Promised.{Checks, Converts, Compiles, TestsWords};
ghost use Rattle.cobbletwill.specs.Witness.{Witnessed};
ghost use Rattle.cobbletwill.specs.Typed.{TypedFace};

use machine::compile::compile;
use rules::convert::{End, check, convert};
use rules::refusal::Refusal;
use typed::text::from_text;
use witness::check::{Input, witness};
use words::sound_words::is_sound;

// The version of the library, 0.11.0 in one number: 65536 times the first, 256 times the second, and the third.
pub fn cobbletwill_version() -> u32
    ensures { result ≡ 2816 }
{
    2816
}

// 0 for a table that is accepted, else the number of its refusal.
fn code(answer: Result<(), Refusal>) -> u32
    ensures { result ≡ check_code (outcome_of answer) }
{
    match answer {
        Ok(()) => 0,
        Err(refusal) => u32::from(refusal.number()),
    }
}

// 0 for a table that keeps the rules, else the number of its refusal, 1 to 7.
pub fn cobbletwill_check(table: &[u8]) -> u32
    ensures { Checks table.now result }
{
    code(check(table))
}

// 0 for closed and 64 for stopped, with the place and the number of characters written set; else the number of the refusal, 1 to 7, 14 or 15, and nothing changed.
pub fn cobbletwill_convert(
    table: &[u8],
    input: &[u16],
    output: &mut [u16],
    place: &mut u64,
    written: &mut u64,
) -> u32
    ensures { Converts table.now input.now output.old place.old written.old
        result output.new place.new written.new }
{
    match convert(table, input, output) {
        Ok(conversion) => {
            *place = conversion.place as u64;
            *written = conversion.count as u64;
            match conversion.end {
                End::Closed => 0,
                End::Stopped => 64,
            }
        }
        Err(refusal) => u32::from(refusal.number()),
    }
}

// 0 with the words of the table; else the number of the refusal, 1 to 9 with the 19,961 words zero, or 10 with nothing changed.
pub fn cobbletwill_compile(table: &[u8], words: &mut [u16]) -> u32
    ensures { Compiles table.now words.old result words.new }
{
    code(compile(table, words))
}

// The input goes to the ten numbers: its length, then its nine places.
fn put_input(input: Input, numbers: &mut [u16; 10])
    ensures { numbers.new ≡ input.length ∷ input.characters }
{
    numbers[0] = input.length;
    numbers[1..].copy_from_slice(&input.characters);
}

// 0 for a live rule with an input set on which it is the first choice, 66 for a dead rule with the input of no character set; else the number of the
// refusal of compiling, and the input as found. The words are those that compiling leaves.
pub fn cobbletwill_witness(table: &[u8], words: &mut [u16], rule: u32, input: &mut [u16; 10]) -> u32
    ensures { Witnessed table.now words.old rule input.old result words.new input.new }
{
    match witness(table, words, rule) {
        Ok(Some(shown)) => {
            put_input(shown, input);
            0
        }
        Ok(None) => {
            *input = [0; 10];
            66
        }
        Err(refusal) => u32::from(refusal.number()),
    }
}

// 0 with the records of the typed text and their length in bytes set; else the number of the refusal, 16, 17, 2 to 7 or 15, and nothing changed.
pub fn cobbletwill_from_text(text: &[u16], table: &mut [u8], length: &mut u64) -> u32
    ensures { TypedFace text.now table.old length.old result table.new length.new }
{
    match from_text(text, table) {
        Ok(size) => {
            *length = size as u64;
            0
        }
        Err(refusal) => u32::from(refusal.number()),
    }
}

// 1 for sound words, 0 for words that no machine runs on.
pub fn cobbletwill_is_sound(words: &[u16]) -> u32
    ensures { TestsWords words.now result }
{
    u32::from(is_sound(words))
}
