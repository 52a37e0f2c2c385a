// The tests of a chain's call: 11 to 14, each for the first and then the second, then 18 and 15.
ghost use Rattle.std.specs.Prelude.{◌≡◌, ◌≤◌, length, MatchResult};
ghost use Rattle.meaning.specs.Direct.{limit};
ghost use Rattle.meaning.specs.Refusal.{accepted, refused};
ghost use Rattle.rules.specs.Answers.{outcome_of, number_of};
ghost use Rattle.reckoning.specs.Chain.{admits_chain};
ghost use Rattle.session.specs.Keeping.{together, session_of};
ghost use Rattle.chain.specs.bridge.Both.{room_tests};

use rules::refusal::Refusal;
use session::kept::{Kept, Status, is_sound_session};
use words::read::Machine;

// What the room that a call needs is worked out from: a machine's E, and how many characters its session has received and holds.
#[derive(Clone, Copy)]
struct Needs {
    most: u64,
    received: u64,
    held: u64,
    ghost small: { (most ≤ 8) × (received ≤ limit) × (held ≤ received) },
}

// Refusals 14, 18 and 15, of two open sessions. "Refusal 14 tests both sessions, the second with the least middle length as its piece": that
// length is worked out once the first has passed, so that it is small.
fn admit_open(first: Needs, second: Needs, size: u64, middle: u64, room: u64) -> Result<(), Refusal>
    ensures { outcome_of result
        ≡ room_tests first.most first.received first.held second.most second.received second.held size middle room }
{
    if size > 1099511627776 - first.received {
        return Err(Refusal::TooLong);
    }
    let least = first.most * (first.held + size);
    let second_piece = least;
    if second_piece > 1099511627776 - second.received {
        return Err(Refusal::TooLong);
    }
    if middle < least {
        return Err(Refusal::ShortMiddle);
    }
    if room < second.most * (second.held + least) {
        return Err(Refusal::ShortOutput);
    }
    Ok(())
}

// "Each of 11 to 14 is tested for the first, then the second", for a piece of `size` characters and buffers of so much room: both machines of the words.
pub(crate) fn admit<'a>(
    first_words: &'a [u16],
    first: Kept,
    first_uses: &[u64; 34],
    second_words: &'a [u16],
    second: Kept,
    second_uses: &[u64; 34],
    size: usize,
    middle: usize,
    room: usize,
) -> Result<(Machine<'a>, Machine<'a>), Refusal>
    ensures { let tests = admits_chain first_words.now second_words.now (session_of (together first first_uses.now))
        (session_of (together second second_uses.now)) size middle room in
        MatchResult result (λ both. (both.0.words.all ≡ first_words.entry) × (both.1.words.all ≡ second_words.entry) × (tests ≡ accepted tt))
        (λ r. tests ≡ refused (number_of r)) }
{
    let Some(one) = Machine::new(first_words) else {
        return Err(Refusal::UnsoundWords);
    };
    let Some(other) = Machine::new(second_words) else {
        return Err(Refusal::UnsoundWords);
    };
    if !is_sound_session(one, first, first_uses) {
        return Err(Refusal::UnsoundSession);
    }
    if !is_sound_session(other, second, second_uses) {
        return Err(Refusal::UnsoundSession);
    }
    if first.status != Status::Open {
        return Err(Refusal::Ended);
    }
    if second.status != Status::Open {
        return Err(Refusal::Ended);
    }
    let first_needs = Needs {
        most: one.words.expansion() as u64,
        received: first.received,
        held: first.held_count as u64,
    };
    let second_needs = Needs {
        most: other.words.expansion() as u64,
        received: second.received,
        held: second.held_count as u64,
    };
    admit_open(
        first_needs,
        second_needs,
        size as u64,
        middle as u64,
        room as u64,
    )?;
    Ok((one, other))
}
