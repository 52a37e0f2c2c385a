// Sessions as C holds them: feed, finish and preview over plain numbers. The crate `cobbletwill_c` exports three of these functions, and
// include/cobbletwill.h declares them. A session is lent in two parts, its counts of uses by themselves, so that a feed or a finish changes these
// in place and copies none of them.
ghost use Rattle.std.specs.Prelude.{[], ◌≡◌, ◌<◌, ◌≤◌, MatchOption};
ghost use Rattle.rules.specs.Answers.{number_of};
ghost use Rattle.automaton.specs.Sound.{sound};
ghost use Rattle.session.specs.Keeping.{meant_status, together, session_of};
ghost use Rattle.session.specs.Promised.{answer_of, written_of};
ghost use Rattle.cobbletwill.specs.Sessions as Spec;
ghost use Rattle.cobbletwill.specs.Promised.{Feeds, Finishes, Previews};
ghost use Rattle.cobbletwill.specs.bridge.Lent.{Keeps, session_after};

use rules::refusal::Refusal;
use session::call::{Went, feed_kept, finish_kept, preview_kept};
use session::kept::{Kept, Status};
use session::tally::Tally;
use words::numbers::StateNo;
use words::sound_words::is_sound;

// A session of plain numbers, so that no value of any field is undefined, without its counts of uses: 48 bytes without gaps. All 0 is fresh.
#[repr(C)]
#[derive(Clone, Copy, Debug, PartialEq, Eq)]
pub struct SessionNumbers {
    pub received: u64,
    pub tally: Tally,
    // 0 open, 1 closed, 2 stopped; a number above 2 is no session's.
    pub status: u32,
    pub state: u16,
    pub held_count: u16,
    pub held: [u16; 8],
}

impl SessionNumbers {
    // What the numbers keep. Those with a status above 2 are no session's.
    pub(crate) fn kept(&self) -> Option<Kept>
        ensures { MatchOption result (2 < self.now.status) (λ kept. (self.now.status ≤ 2) × Keeps self.now kept) }
    {
        let status = match self.status {
            0 => Status::Open,
            1 => Status::Closed,
            2 => Status::Stopped,
            _ => return None,
        };
        Some(Kept {
            status,
            state: StateNo(self.state),
            held: self.held,
            held_count: self.held_count,
            received: self.received,
            tally: self.tally,
        })
    }
}

impl From<Kept> for SessionNumbers {
    ghost from_gives = { λ kept numbers. numbers ≡ Spec.numbers_of (session_of (together kept [])) };

    fn from(kept: Kept) -> SessionNumbers {
        let held = kept.held;
        SessionNumbers {
            received: kept.received,
            // number by number: a load of all 16 bytes, soon after the two stores of 8 that made them, stalls, for some 5 ns a call
            tally: Tally {
                produced: kept.tally.produced,
                steps: kept.tally.steps,
            },
            status: kept.status as u32,
            state: kept.state.0,
            held_count: kept.held_count,
            held,
        }
    }
}

// A session's status as an accepted call answers it.
pub(crate) fn status_code(status: Status) -> u32
    ensures { result ≡ Spec.status_code (meant_status status) }
{
    match status {
        Status::Open => 65,
        Status::Closed => 0,
        Status::Stopped => 64,
    }
}

// The refusal of numbers that are no session's: "12 session not sound", after 11.
pub(crate) fn no_session(words: &[u16]) -> Refusal
    ensures { number_of result ≡ Spec.no_session (sound words.now) }
{
    if is_sound(words) {
        Refusal::UnsoundSession
    } else {
        Refusal::UnsoundWords
    }
}

// What C gets of a call: its status, with the session that it leaves and the number of characters written set, or the number of its refusal.
fn hand_over(
    called: Result<Went<Kept>, Refusal>,
    session: &mut SessionNumbers,
    written: &mut u64,
) -> u32
    ensures answer { result ≡ Spec.answer_code (answer_of (written_of called)) }
    ensures session { session.new ≡ session_after called session.old }
    ensures written { written.new ≡ Spec.written_after (answer_of (written_of called)) written.old }
{
    match called {
        Ok(went) => {
            *session = SessionNumbers::from(went.left);
            *written = went.written.count as u64;
            status_code(went.written.status)
        }
        Err(refusal) => u32::from(refusal.number()),
    }
}

// 0 closed, 64 stopped, 65 open, with the session and the number of characters written set; else the number of the refusal, 11 to 15, and
// nothing is written.
pub fn cobbletwill_feed_parts(
    words: &[u16],
    session: &mut SessionNumbers,
    uses: &mut [u64; 34],
    piece: &[u16],
    output: &mut [u16],
    written: &mut u64,
) -> u32
    ensures { Feeds words.now session.old uses.old piece.now output.old written.old
        (Spec.left result session.new uses.new output.new written.new) }
{
    let Some(kept) = session.kept() else {
        return u32::from(no_session(words).number());
    };
    let called = feed_kept(words, kept, uses, piece, output);
    hand_over(called, session, written)
}

// The same for the end of the input.
pub fn cobbletwill_finish_parts(
    words: &[u16],
    session: &mut SessionNumbers,
    uses: &mut [u64; 34],
    output: &mut [u16],
    written: &mut u64,
) -> u32
    ensures { Finishes words.now session.old uses.old output.old written.old
        (Spec.left result session.new uses.new output.new written.new) }
{
    let Some(kept) = session.kept() else {
        return u32::from(no_session(words).number());
    };
    let called = finish_kept(words, kept, uses, output);
    hand_over(called, session, written)
}

// 64 stopped, 65 open, with the later session and the number of characters that a feed would write set; else the number of the refusal, 11 to
// 14, and nothing is written. The session is only read.
pub fn cobbletwill_preview_parts(
    words: &[u16],
    session: &SessionNumbers,
    uses: &[u64; 34],
    piece: &[u16],
    later: &mut SessionNumbers,
    counts: &mut [u64; 34],
    written: &mut u64,
) -> u32
    ensures { Previews words.now session.now uses.now piece.now later.old counts.old
        written.old (Spec.previewed result later.new counts.new written.new) }
{
    let Some(kept) = session.kept() else {
        return u32::from(no_session(words).number());
    };
    let called = preview_kept(words, kept, uses, piece, counts);
    hand_over(called, later, written)
}
