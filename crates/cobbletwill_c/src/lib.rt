// The static library for C: each export calls the function of the same name of the crate `cobbletwill` and states its clauses again.
// include/cobbletwill.h declares them.
#![tactic(auto)]

ghost use Rattle.std.specs.Prelude.{◌≡◌};
ghost use Rattle.cobbletwill.specs.Promised.{Checks, Converts, Compiles, TestsWords, Feeds, Finishes, Previews, ChainFeeds, ChainFinishes};
ghost use Rattle.cobbletwill.specs.Witness.{Witnessed};
ghost use Rattle.cobbletwill.specs.Typed.{TypedFace};
ghost use Rattle.cobbletwill.specs.Sessions.{left, previewed};
ghost use Rattle.cobbletwill.specs.Chains as Chains;

use cobbletwill::sessions::SessionNumbers;

// The version of the library, 0.11.0 in one number: 65536 times the first, 256 times the second, and the third.
#[unsafe(no_mangle)]
pub extern "C" fn cobbletwill_version() -> u32
    ensures { result ≡ 2816 }
{
    cobbletwill::cobbletwill_version()
}

// 0 for a table that keeps the rules, else the number of its refusal, 1 to 7.
#[unsafe(no_mangle)]
pub extern "C" fn cobbletwill_check(table: &[u8]) -> u32
    ensures { Checks table.now result }
{
    cobbletwill::cobbletwill_check(table)
}

// 0 for closed and 64 for stopped, with the place and the number of characters written set; else the number of the refusal, 1 to 7, 14 or 15, and nothing changed.
#[unsafe(no_mangle)]
pub extern "C" fn cobbletwill_convert(
    table: &[u8],
    input: &[u16],
    output: &mut [u16],
    place: &mut u64,
    written: &mut u64,
) -> u32
    ensures { Converts table.now input.now output.old place.old written.old
        result output.new place.new written.new }
{
    cobbletwill::cobbletwill_convert(table, input, output, place, written)
}

// 0 with the words of the table; else the number of the refusal, 1 to 9 with the 19,961 words zero, or 10 with nothing changed.
#[unsafe(no_mangle)]
pub extern "C" fn cobbletwill_compile(table: &[u8], words: &mut [u16]) -> u32
    ensures { Compiles table.now words.old result words.new }
{
    cobbletwill::cobbletwill_compile(table, words)
}

// 0 for a live rule with an input set on which it is the first choice, 66 for a dead rule with the input of no character set; else the number of the
// refusal of compiling, and the input as found. The words are those that compiling leaves.
#[unsafe(no_mangle)]
pub extern "C" fn cobbletwill_witness(
    table: &[u8],
    words: &mut [u16],
    rule: u32,
    input: &mut [u16; 10],
) -> u32
    ensures { Witnessed table.now words.old rule input.old result words.new input.new }
{
    cobbletwill::cobbletwill_witness(table, words, rule, input)
}

// 0 with the records of the typed text and their length in bytes set; else the number of the refusal, 16, 17, 2 to 7 or 15, and nothing changed.
#[unsafe(no_mangle)]
pub extern "C" fn cobbletwill_from_text(text: &[u16], table: &mut [u8], length: &mut u64) -> u32
    ensures { TypedFace text.now table.old length.old result table.new length.new }
{
    cobbletwill::cobbletwill_from_text(text, table, length)
}

// 1 for sound words, 0 for words that no machine runs on.
#[unsafe(no_mangle)]
pub extern "C" fn cobbletwill_is_sound(words: &[u16]) -> u32
    ensures { TestsWords words.now result }
{
    cobbletwill::cobbletwill_is_sound(words)
}

// 0 closed, 64 stopped, 65 open, with the session and the number of characters written set; else the number of the refusal, 11 to 15, and
// nothing is written.
#[unsafe(no_mangle)]
pub extern "C" fn cobbletwill_feed_parts(
    words: &[u16],
    session: &mut SessionNumbers,
    uses: &mut [u64; 34],
    piece: &[u16],
    output: &mut [u16],
    written: &mut u64,
) -> u32
    ensures { Feeds words.now session.old uses.old piece.now output.old written.old
        (left result session.new uses.new output.new written.new) }
{
    cobbletwill::sessions::cobbletwill_feed_parts(words, session, uses, piece, output, written)
}

// The same for the end of the input.
#[unsafe(no_mangle)]
pub extern "C" fn cobbletwill_finish_parts(
    words: &[u16],
    session: &mut SessionNumbers,
    uses: &mut [u64; 34],
    output: &mut [u16],
    written: &mut u64,
) -> u32
    ensures { Finishes words.now session.old uses.old output.old written.old
        (left result session.new uses.new output.new written.new) }
{
    cobbletwill::sessions::cobbletwill_finish_parts(words, session, uses, output, written)
}

// 64 stopped, 65 open, with the later session and the number of characters that a feed would write set; else the number of the refusal, 11 to
// 14, and nothing is written. The session is only read.
#[unsafe(no_mangle)]
pub extern "C" fn cobbletwill_preview_parts(
    words: &[u16],
    session: &SessionNumbers,
    uses: &[u64; 34],
    piece: &[u16],
    later: &mut SessionNumbers,
    counts: &mut [u64; 34],
    written: &mut u64,
) -> u32
    ensures { Previews words.now session.now uses.now piece.now later.old counts.old
        written.old (previewed result later.new counts.new written.new) }
{
    cobbletwill::sessions::cobbletwill_preview_parts(
        words, session, uses, piece, later, counts, written,
    )
}

// The second's status, 0 closed, 64 stopped, 65 open, with both sessions, the number of characters that the second wrote and the first's status set;
// else the number of the refusal, 11 to 15 or 18, and nothing is written.
#[unsafe(no_mangle)]
pub extern "C" fn cobbletwill_chain_feed_parts(
    first_words: &[u16],
    first: &mut SessionNumbers,
    first_uses: &mut [u64; 34],
    second_words: &[u16],
    second: &mut SessionNumbers,
    second_uses: &mut [u64; 34],
    piece: &[u16],
    middle: &mut [u16],
    output: &mut [u16],
    written: &mut u64,
    first_status: &mut u32,
) -> u32
    ensures { ChainFeeds first_words.now first.old first_uses.old second_words.now second.old
        second_uses.old piece.now middle.old output.old written.old first_status.old
        (Chains.left result first.new first_uses.new second.new second_uses.new middle.new output.new
        written.new first_status.new) }
{
    cobbletwill::chains::cobbletwill_chain_feed_parts(
        first_words,
        first,
        first_uses,
        second_words,
        second,
        second_uses,
        piece,
        middle,
        output,
        written,
        first_status,
    )
}

// The same for the end of the input.
#[unsafe(no_mangle)]
pub extern "C" fn cobbletwill_chain_finish_parts(
    first_words: &[u16],
    first: &mut SessionNumbers,
    first_uses: &mut [u64; 34],
    second_words: &[u16],
    second: &mut SessionNumbers,
    second_uses: &mut [u64; 34],
    middle: &mut [u16],
    output: &mut [u16],
    written: &mut u64,
    first_status: &mut u32,
) -> u32
    ensures { ChainFinishes first_words.now first.old first_uses.old second_words.now second.old
        second_uses.old middle.old output.old written.old first_status.old
        (Chains.left result first.new first_uses.new second.new second_uses.new middle.new output.new
        written.new first_status.new) }
{
    cobbletwill::chains::cobbletwill_chain_finish_parts(
        first_words,
        first,
        first_uses,
        second_words,
        second,
        second_uses,
        middle,
        output,
        written,
        first_status,
    )
}
