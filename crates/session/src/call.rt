// Feed, finish and preview: the tests of a call, the machine's run from the session over the piece, and the session that it leaves.
ghost use Rattle.std.specs.Prelude.{[], ◌∷◌, ◌≡◌, ◌+◌, ◌*◌, ◌≤◌, ltb, length, Ok, OnErr, MatchResult};
ghost use Rattle.lists.specs.Decide.{select};
ghost use Rattle.meaning.specs.Refusal.{accepted, refused};
ghost use Rattle.meaning.specs.Direct.{limit};
ghost use Rattle.rules.specs.Answers.{number_of, outcome_of as check_of};
ghost use Rattle.automaton.specs.Automaton.{from_words};
ghost use Rattle.reckoning.specs.Calls.{admits, received_by, call_by};
ghost use Rattle.session.specs.Keeping.{meant_status, together, session_of};
ghost use Rattle.session.specs.Promised.{outcome_of, written_of, left_of, Feeds, Finishes, Previews};
ghost use Rattle.session.specs.bridge.Later.{Leaves, Small, Resumable, went_on, joined};

use crate::kept::{Kept, Session, Status, is_sound_session};
use crate::run::{Ran, run_words};
use crate::tally::Tally;
use crate::text::Text;
use rules::refusal::Refusal;
use words::read::Machine;

// "Feed and finish write output from the buffer's start and answer its count and the status."
#[derive(Clone, Copy, Debug, PartialEq, Eq)]
pub struct Written {
    pub count: usize,
    pub status: Status,
}

// What a call comes to that can't leave it in place: what it wrote, and the session that it leaves, or of one whose counts of uses are lent the rest.
#[derive(Clone, Copy, Debug, PartialEq, Eq)]
pub struct Went<L> {
    pub written: Written,
    pub left: L,
}

// The most that a call may write: eight characters for each of the most that a session may receive.
const MOST_OUTPUT: usize = 8796093022208;

// Refusals 14 and 15, of a session that has received so many characters and holds so many of them, a piece of `size` characters and a buffer of so much room.
fn admit_open(most: u64, received: u64, held: u64, size: u64, room: u64) -> Result<(), Refusal>
    requires { (most ≤ 8) × (received ≤ limit) × (held ≤ received) }
    ensures { check_of result
        ≡ select ((ltb limit (received + size), refused 14) ∷ (ltb room (most * (held + size)), refused 15) ∷ []) (accepted tt) }
{
    if size > 1099511627776 - received {
        return Err(Refusal::TooLong);
    }
    if room < most * (held + size) {
        return Err(Refusal::ShortOutput);
    }
    Ok(())
}

// "Feed and finish 11 to 15", for a piece of `size` characters and a buffer of so much room: the machine of the words.
fn admit<'a>(
    words: &'a [u16],
    kept: Kept,
    uses: &[u64; 34],
    size: usize,
    room: usize,
) -> Result<Machine<'a>, Refusal>
    ensures { let tests = admits words.now (session_of (together kept uses.now)) size room in
        MatchResult result (λ machine. (machine.words.all ≡ words.entry) × (tests ≡ accepted tt)) (λ r. tests ≡ refused (number_of r)) }
{
    let Some(machine) = Machine::new(words) else {
        return Err(Refusal::UnsoundWords);
    };
    if !is_sound_session(machine, kept, uses) {
        return Err(Refusal::UnsoundSession);
    }
    if kept.status != Status::Open {
        return Err(Refusal::Ended);
    }
    let most = machine.words.expansion() as u64;
    let held = kept.held_count as u64;
    admit_open(most, kept.received, held, size as u64, room as u64)?;
    Ok(machine)
}

// "When stopped, nothing is held and received equals consumed."
fn received_by(status: Status, received: u64, gone: u64) -> u64
    ensures { result ≡ received_by (meant_status status) received gone }
{
    match status {
        Status::Open | Status::Closed => received,
        Status::Stopped => gone,
    }
}

// What is kept after a run over `size` more characters, with the characters that it holds.
fn later(kept: Kept, size: usize, ran: Ran, held: [u16; 8]) -> Kept
    requires { Small kept size ran }
    ensures { Leaves kept size ran held result }
{
    let consumed = kept.received - kept.held_count as u64;
    let gone = consumed + ran.from as u64;
    let received = kept.received + size as u64;
    Kept {
        status: ran.status,
        state: ran.state,
        held,
        held_count: (ran.at - ran.from) as u16,
        received: received_by(ran.status, received, gone),
        tally: kept.tally + Tally::from(ran),
    }
}

// The machine goes on from an admitted session over the piece. Lent an output without places, it only counts.
pub fn resume(
    machine: Machine<'_>,
    kept: Kept,
    uses: &mut [u64; 34],
    piece: &[u16],
    ended: bool,
    output: &mut [u16],
) -> Went<Kept>
    requires { Resumable machine.words.all.now (session_of (together kept uses.old)) (length piece.now) (length output.old) }
    ensures { outcome_of (Ok result.written) (together result.left uses.new) output.new
        ≡ went_on (from_words machine.entry.words.all.now) (session_of (together kept uses.old)) piece.now ended output.old }
{
    let text = Text {
        given: kept.held(),
        piece,
    };
    let ran = run_words(machine, &text, kept.state, ended, uses, output);
    let mut held = [0u16; 8];
    text.gather(ran.from, ran.at, &mut held);
    let written = Written {
        count: ran.count,
        status: ran.status,
    };
    Went {
        written,
        left: later(kept, piece.len(), ran, held),
    }
}

// A call over the piece, which may be the input's last, of a session whose counts of uses are lent, and changed in place. Where it is refused, nothing changes.
fn call(
    words: &[u16],
    kept: Kept,
    uses: &mut [u64; 34],
    piece: &[u16],
    ended: bool,
    output: &mut [u16],
) -> Result<Went<Kept>, Refusal>
    ensures unchanged { OnErr result (uses.new ≡ uses.old) }
    ensures comes { let s = session_of (together kept uses.old) in
        outcome_of (written_of result) (together (left_of kept result) uses.new) output.new
        ≡ call_by (admits words.now s (length piece.now) (length output.old)) (from_words words.now) s piece.now ended output.old }
{
    let machine = admit(words, kept, uses, piece.len(), output.len())?;
    Ok(resume(machine, kept, uses, piece, ended, output))
}

// A feed of a session whose counts of uses are lent, and changed in place.
#[tactic(auto, unfolding(reckoning::specs::Calls::feed))]
pub fn feed_kept(
    words: &[u16],
    kept: Kept,
    uses: &mut [u64; 34],
    piece: &[u16],
    output: &mut [u16],
) -> Result<Went<Kept>, Refusal>
    ensures unchanged { OnErr result (uses.new ≡ uses.old) }
    ensures feeds { Feeds words.now (together kept uses.old) piece.now output.old
        (written_of result) (together (left_of kept result) uses.new) output.new }
{
    call(words, kept, uses, piece, false, output)
}

// A finish, likewise.
#[tactic(auto, unfolding(reckoning::specs::Calls::finish))]
pub fn finish_kept(
    words: &[u16],
    kept: Kept,
    uses: &mut [u64; 34],
    output: &mut [u16],
) -> Result<Went<Kept>, Refusal>
    ensures unchanged { OnErr result (uses.new ≡ uses.old) }
    ensures finishes { Finishes words.now (together kept uses.old) output.old
        (written_of result) (together (left_of kept result) uses.new) output.new }
{
    call(words, kept, uses, &[], true, output)
}

// A session's counts of uses, for a preview to change. One by one: of `*later = *uses` the compiler makes a call of `memmove`, which the library may not need.
fn copy_uses(uses: &[u64; 34], later: &mut [u64; 34])
    ensures { later.new ≡ uses.now }
{
    for i in 0..34 {
        later[i] = uses[i];
    }
}

// "It answers the output count, status and later session of a feed made on a copy with enough output": the counts of uses go to `later` where
// it is accepted, and the run has no output to write to.
pub fn preview_kept(
    words: &[u16],
    kept: Kept,
    uses: &[u64; 34],
    piece: &[u16],
    later: &mut [u64; 34],
) -> Result<Went<Kept>, Refusal>
    ensures unchanged { OnErr result (later.new ≡ later.old) }
    ensures previews { Previews words.now (together kept uses.now) piece.now
        (written_of result) (together (left_of kept result) later.new) }
{
    let machine = admit(words, kept, uses, piece.len(), MOST_OUTPUT)?;
    copy_uses(uses, later);
    Ok(resume(machine, kept, later, piece, false, &mut []))
}

// What a call comes to, with the counts of uses as it left them.
fn with_uses(went: Went<Kept>, uses: [u64; 34]) -> Went<Session>
    ensures { result ≡ joined went uses }
{
    Went {
        written: went.written,
        left: Session {
            kept: went.left,
            uses,
        },
    }
}

// A call, likewise, for callers that can't lend their session.
fn call_by_value(
    words: &[u16],
    session: Session,
    piece: &[u16],
    ended: bool,
    output: &mut [u16],
) -> Result<Went<Session>, Refusal>
    ensures { let s = session_of session in
        outcome_of (written_of result) (left_of session result) output.new
        ≡ call_by (admits words.now s (length piece.now) (length output.old)) (from_words words.now) s piece.now ended output.old }
{
    let mut uses = session.uses;
    let went = call(words, session.kept, &mut uses, piece, ended, output)?;
    Ok(with_uses(went, uses))
}

// A feed, for callers that can't lend their session.
#[tactic(auto, unfolding(reckoning::specs::Calls::feed))]
pub fn feed_by_value(
    words: &[u16],
    session: Session,
    piece: &[u16],
    output: &mut [u16],
) -> Result<Went<Session>, Refusal>
    ensures { Feeds words.now session piece.now output.old (written_of result) (left_of session result) output.new }
{
    call_by_value(words, session, piece, false, output)
}

// A finish, for callers that can't lend their session.
#[tactic(auto, unfolding(reckoning::specs::Calls::finish))]
pub fn finish_by_value(
    words: &[u16],
    session: Session,
    output: &mut [u16],
) -> Result<Went<Session>, Refusal>
    ensures { Finishes words.now session output.old (written_of result) (left_of session result) output.new }
{
    call_by_value(words, session, &[], true, output)
}

// A preview of a session by value.
pub fn preview_by_value(
    words: &[u16],
    session: Session,
    piece: &[u16],
) -> Result<Went<Session>, Refusal>
    ensures { Previews words.now session piece.now (written_of result) (left_of session result) }
{
    let mut later = session.uses;
    let went = preview_kept(words, session.kept, &session.uses, piece, &mut later)?;
    Ok(with_uses(went, later))
}

// A call, likewise, of a session that is lent, and left as the call leaves it. It is written where the call is accepted, and else only read.
fn call_lent(
    words: &[u16],
    session: &mut Session,
    piece: &[u16],
    ended: bool,
    output: &mut [u16],
) -> Result<Written, Refusal>
    ensures { let s = session_of session.old in
        outcome_of result session.new output.new
        ≡ call_by (admits words.now s (length piece.now) (length output.old)) (from_words words.now) s piece.now ended output.old }
{
    let went = call_by_value(words, *session, piece, ended, output)?;
    *session = went.left;
    Ok(went.written)
}

// "Feed": the session is lent, and left as the call leaves it.
#[tactic(auto, unfolding(reckoning::specs::Calls::feed))]
pub fn feed(
    words: &[u16],
    session: &mut Session,
    piece: &[u16],
    output: &mut [u16],
) -> Result<Written, Refusal>
    ensures { Feeds words.now session.old piece.now output.old result session.new output.new }
{
    call_lent(words, session, piece, false, output)
}

// "Finish", likewise.
#[tactic(auto, unfolding(reckoning::specs::Calls::finish))]
pub fn finish(words: &[u16], session: &mut Session, output: &mut [u16]) -> Result<Written, Refusal>
    ensures { Finishes words.now session.old output.old result session.new output.new }
{
    call_lent(words, session, &[], true, output)
}

// "A preview takes machine, session and piece." The session is lent and only read: "It writes nothing."
pub fn preview(words: &[u16], session: &Session, piece: &[u16]) -> Result<Went<Session>, Refusal>
    ensures { Previews words.now session.now piece.now (written_of result) (left_of session.now result) }
{
    preview_by_value(words, *session, piece)
}
