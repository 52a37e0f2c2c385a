// Chains as C calls them: feed and finish of two sessions over plain numbers. The crate `cobbletwill_c` exports two of these functions, and
// include/cobbletwill.h declares them. Each session is lent in two parts, as for feed and finish of one.
ghost use Rattle.std.specs.Prelude.{◌&&◌, ◌≡◌};
ghost use Rattle.rules.specs.Answers.{number_of};
ghost use Rattle.automaton.specs.Sound.{sound};
ghost use Rattle.chain.specs.Promised.{answer_of, written_of};
ghost use Rattle.cobbletwill.specs.Sessions.{no_session};
ghost use Rattle.cobbletwill.specs.Chains as Spec;
ghost use Rattle.cobbletwill.specs.Promised.{ChainFeeds, ChainFinishes};
ghost use Rattle.cobbletwill.specs.bridge.Chained.{sessions_after};

use crate::sessions::{SessionNumbers, no_session, status_code};
use chain::call::{Went, feed_kept, finish_kept};
use rules::refusal::Refusal;
use session::kept::Kept;
use words::sound_words::is_sound;

// The refusal where the numbers of either are no session's: "12 session not sound", after 11 of both.
fn no_chain(first_words: &[u16], second_words: &[u16]) -> Refusal
    ensures { number_of result ≡ no_session (sound first_words.now && sound second_words.now) }
{
    if is_sound(first_words) {
        no_session(second_words)
    } else {
        Refusal::UnsoundWords
    }
}

// What C gets of a call: the second's status, with both sessions as it leaves them, the number of characters written and the first's status set, or the
// number of its refusal.
fn hand_over(
    called: Result<Went<Kept>, Refusal>,
    first: &mut SessionNumbers,
    second: &mut SessionNumbers,
    written: &mut u64,
    first_status: &mut u32,
) -> u32
    ensures answer { result ≡ Spec.answer_code (answer_of (written_of called)) }
    ensures sessions { (first.new, second.new) ≡ sessions_after called first.old second.old }
    ensures written { written.new ≡ Spec.written_after (answer_of (written_of called)) written.old }
    ensures status { first_status.new ≡ Spec.first_after (answer_of (written_of called)) first_status.old }
{
    match called {
        Ok(went) => {
            *first = SessionNumbers::from(went.first);
            *second = SessionNumbers::from(went.second);
            *written = went.written.count as u64;
            *first_status = status_code(went.written.first);
            status_code(went.written.second)
        }
        Err(refusal) => u32::from(refusal.number()),
    }
}

// The second's status, 0 closed, 64 stopped, 65 open, with both sessions, the number of characters that the second wrote and the first's status set;
// else the number of the refusal, 11 to 15 or 18, and nothing is written.
pub fn cobbletwill_chain_feed_parts(
    first_words: &[u16],
    first: &mut SessionNumbers,
    first_uses: &mut [u64; 34],
    second_words: &[u16],
    second: &mut SessionNumbers,
    second_uses: &mut [u64; 34],
    piece: &[u16],
    middle: &mut [u16],
    output: &mut [u16],
    written: &mut u64,
    first_status: &mut u32,
) -> u32
    ensures { ChainFeeds first_words.now first.old first_uses.old second_words.now second.old
        second_uses.old piece.now middle.old output.old written.old first_status.old
        (Spec.left result first.new first_uses.new second.new second_uses.new middle.new output.new
        written.new first_status.new) }
{
    let Some(one) = first.kept() else {
        return u32::from(no_chain(first_words, second_words).number());
    };
    let Some(other) = second.kept() else {
        return u32::from(no_chain(first_words, second_words).number());
    };
    let called = feed_kept(
        first_words,
        one,
        first_uses,
        second_words,
        other,
        second_uses,
        piece,
        middle,
        output,
    );
    hand_over(called, first, second, written, first_status)
}

// The same for the end of the input.
pub fn cobbletwill_chain_finish_parts(
    first_words: &[u16],
    first: &mut SessionNumbers,
    first_uses: &mut [u64; 34],
    second_words: &[u16],
    second: &mut SessionNumbers,
    second_uses: &mut [u64; 34],
    middle: &mut [u16],
    output: &mut [u16],
    written: &mut u64,
    first_status: &mut u32,
) -> u32
    ensures { ChainFinishes first_words.now first.old first_uses.old second_words.now second.old
        second_uses.old middle.old output.old written.old first_status.old
        (Spec.left result first.new first_uses.new second.new second_uses.new middle.new output.new
        written.new first_status.new) }
{
    let Some(one) = first.kept() else {
        return u32::from(no_chain(first_words, second_words).number());
    };
    let Some(other) = second.kept() else {
        return u32::from(no_chain(first_words, second_words).number());
    };
    let called = finish_kept(
        first_words,
        one,
        first_uses,
        second_words,
        other,
        second_uses,
        middle,
        output,
    );
    hand_over(called, first, second, written, first_status)
}
