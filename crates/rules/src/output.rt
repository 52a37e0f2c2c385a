// What a group writes: sums modulo 65536 of a constant and coefficients times characters, and hexadecimal digits of characters.
ghost use Rattle.std.specs.Prelude.{◌≡◌, ◌+◌, ◌*◌, ◌<◌, ◌≤◌, ◌++◌, length, take, drop};
ghost use Rattle.meaning.specs.Value.{nibble, hex_digit};
ghost use Rattle.meaning.specs.Block.{at, word_sum, entry_value, block_output, block_size};

use crate::layout::ENTRY;

// Each coefficient from `from` on times its character of `word`, added up.
fn sum_at(block: &[u16], from: usize, word: &[u16]) -> u16
    requires { (from + length word.now ≤ length block.now) × (length word.now ≤ 8) }
    ensures { result ≡ word_sum 0 (take (length word.now) (drop from block.now)) word.now }
{
    // A word has at most 8 characters. To say so here tells the compiler to prepare no loop for long ones, which saves a tenth of the instructions
    // of direct conversion.
    let size = word.len().min(8);
    let mut sum: u16 = 0;
    for i in 0..size {
        sum = sum.wrapping_add(block[from + i].wrapping_mul(word[i]));
    }
    sum
}

// Four bits of a character, those from `shift` on.
fn nibble_of(shift: u16, character: u16) -> u16
    ensures { result ≡ nibble shift character }
{
    if shift < 16 {
        return (character >> shift) % 16;
    }
    0
}

// The hexadecimal digit of a number, which is below 16.
fn digit_of(number: u16) -> u16
    requires { number < 16 }
    ensures { result ≡ hex_digit number }
{
    if number < 10 {
        return 48 + number;
    }
    55 + number
}

// What an entry of a group's block writes for the group's characters.
pub fn entry_value(block: &[u16], entry: usize, word: &[u16]) -> u16
    requires entry_bound { (entry < 8) × (block_size ≤ length block.now) }
    requires word_len { (length word.now ≡ at block.now 0) × (length word.now ≤ 8) }
    ensures { result ≡ entry_value block.now entry word.now }
{
    let from = 3 + ENTRY * entry;
    let constant = block[from + 1];
    let sum = sum_at(block, from + 2, word);
    if block[from] == 0 {
        return sum.wrapping_add(constant);
    }
    digit_of(nibble_of(constant, sum))
}

// What a group, by its block, writes for the characters at the start of `input` goes to `output` from `count` on; the count after it.
pub fn write_group(block: &[u16], input: &[u16], output: &mut [u16], count: usize) -> usize
    requires group_bound { block_size ≤ length block.now }
    requires group_bound_2 { (at block.now 0 ≤ 8) × (at block.now 2 ≤ 8) }
    requires group_in_bounds { at block.now 0 ≤ length input.now }
    requires group_in_bounds_2 { count + at block.now 2 ≤ length output.old }
    ensures value { result ≡ count + at block.now 2 }
    ensures output_after { output.new
        ≡ take count output.old ++ block_output block.now (take (at block.now 0) input.now) ++ drop (count + at block.now 2) output.old }
{
    let size = usize::from(block[0]);
    let number = usize::from(block[2]);
    let word = &input[..size];
    for j in 0..number {
        output[count + j] = entry_value(block, j, word);
    }
    count + number
}
