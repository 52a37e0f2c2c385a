// Feed and finish of a chain: the tests of a call, the first machine's run over the piece into the middle buffer, and the second's over what the
// first wrote. Each stands by its own name, lent, by value and with lent counts, as README has them, and is one call. Whether the piece is the last
// is a fact that the machines take.
ghost use Rattle.std.specs.Prelude.{◌&&◌, ◌≡◌, ◌-◌, ◌≤◌, length, OnErr, Ok};
ghost use Rattle.meaning.specs.Refusal.{accepted};
ghost use Rattle.reckoning.specs.Chain.{is_closed, admits_chain, chain_on};
ghost use Rattle.session.specs.Keeping.{meant_status, together, session_of};
ghost use Rattle.chain.specs.Promised.{outcome_of, written_of, first_of, second_of, Feeds, Finishes};
ghost use Rattle.chain.specs.bridge.Both.{by_tests, joined};

use crate::admit::admit;
use rules::refusal::Refusal;
use session::call::resume;
use session::kept::{Kept, Session, Status};
use words::read::Machine;

// "Each call answers the second's output count and both statuses."
#[derive(Clone, Copy, Debug, PartialEq, Eq)]
pub struct Written {
    pub count: usize,
    pub first: Status,
    pub second: Status,
}

// What a call comes to that can't leave it in place: what it wrote, and both sessions as it leaves them, or of those whose counts of uses are lent the rest.
#[derive(Clone, Copy, Debug, PartialEq, Eq)]
pub struct Went<L> {
    pub written: Written,
    pub first: L,
    pub second: L,
}

// Whether the second has its end: at a finish, where the first has closed.
fn closes(ended: bool, first: Status) -> bool
    ensures { result ≡ (ended && is_closed (meant_status first)) }
{
    ended && first == Status::Closed
}

// How many characters a call wrote, by what was kept before it and after it.
fn gained(before: Kept, after: Kept) -> usize
    requires { before.tally.produced ≤ after.tally.produced }
    ensures { result ≡ after.tally.produced - before.tally.produced }
{
    (after.tally.produced - before.tally.produced) as usize
}

// Both machines go on from admitted sessions: the first over the piece, the second over what the first wrote. "Finish closes the first, then the
// second": the second has its end where the first has closed.
fn go_on(
    one: Machine<'_>,
    first: Kept,
    first_uses: &mut [u64; 34],
    other: Machine<'_>,
    second: Kept,
    second_uses: &mut [u64; 34],
    piece: &[u16],
    ended: bool,
    middle: &mut [u16],
    output: &mut [u16],
) -> Went<Kept>
    requires { admits_chain one.words.all.now other.words.all.now (session_of (together first first_uses.old))
        (session_of (together second second_uses.old)) (length piece.now) (length middle.old) (length output.old) ≡ accepted tt }
    ensures { outcome_of (Ok result.written) (together result.first first_uses.new) (together result.second second_uses.new)
        middle.new output.new
        ≡ chain_on one.entry.words.all.now other.entry.words.all.now (session_of (together first first_uses.old))
        (session_of (together second second_uses.old)) piece.now ended middle.old output.old }
{
    let of_first = resume(one, first, first_uses, piece, ended, middle);
    let passed = gained(first, of_first.left);
    let end = closes(ended, of_first.left.status);
    let of_second = resume(other, second, second_uses, &middle[..passed], end, output);
    let first_left = of_first.left;
    Went {
        written: Written {
            count: gained(second, of_second.left),
            first: first_left.status,
            second: of_second.left.status,
        },
        first: first_left,
        second: of_second.left,
    }
}

// A call over the piece, which may be the input's last, of sessions whose counts of uses are lent, and changed in place. Where it is refused, nothing
// changes. As a function of its own it would take a third more stack, since what it comes to is then copied once more.
#[inline(always)]
fn call(
    first_words: &[u16],
    first: Kept,
    first_uses: &mut [u64; 34],
    second_words: &[u16],
    second: Kept,
    second_uses: &mut [u64; 34],
    piece: &[u16],
    ended: bool,
    middle: &mut [u16],
    output: &mut [u16],
) -> Result<Went<Kept>, Refusal>
    ensures unchanged { OnErr result ((first_uses.new ≡ first_uses.old) × (second_uses.new ≡ second_uses.old)) }
    ensures comes { let s₁ = session_of (together first first_uses.old) in
        let s₂ = session_of (together second second_uses.old) in
        outcome_of (written_of result) (together (first_of first result) first_uses.new) (together (second_of second result) second_uses.new)
        middle.new output.new
        ≡ by_tests first_words.now second_words.now s₁ s₂
        (admits_chain first_words.now second_words.now s₁ s₂ (length piece.now) (length middle.old) (length output.old))
        piece.now ended middle.old output.old }
{
    let (one, other) = admit(
        first_words,
        first,
        first_uses,
        second_words,
        second,
        second_uses,
        piece.len(),
        middle.len(),
        output.len(),
    )?;
    Ok(go_on(
        one,
        first,
        first_uses,
        other,
        second,
        second_uses,
        piece,
        ended,
        middle,
        output,
    ))
}

// A feed of sessions whose counts of uses are lent, and changed in place.
#[tactic(auto, unfolding(reckoning::specs::Chain::chained))]
pub fn feed_kept(
    first_words: &[u16],
    first: Kept,
    first_uses: &mut [u64; 34],
    second_words: &[u16],
    second: Kept,
    second_uses: &mut [u64; 34],
    piece: &[u16],
    middle: &mut [u16],
    output: &mut [u16],
) -> Result<Went<Kept>, Refusal>
    ensures unchanged { OnErr result ((first_uses.new ≡ first_uses.old) × (second_uses.new ≡ second_uses.old)) }
    ensures feeds { Feeds first_words.now second_words.now (together first first_uses.old) (together second second_uses.old)
        piece.now middle.old output.old
        (outcome_of (written_of result) (together (first_of first result) first_uses.new) (together (second_of second result) second_uses.new)
        middle.new output.new) }
{
    call(
        first_words,
        first,
        first_uses,
        second_words,
        second,
        second_uses,
        piece,
        false,
        middle,
        output,
    )
}

// A finish, likewise.
#[tactic(auto, unfolding(reckoning::specs::Chain::chained))]
pub fn finish_kept(
    first_words: &[u16],
    first: Kept,
    first_uses: &mut [u64; 34],
    second_words: &[u16],
    second: Kept,
    second_uses: &mut [u64; 34],
    middle: &mut [u16],
    output: &mut [u16],
) -> Result<Went<Kept>, Refusal>
    ensures unchanged { OnErr result ((first_uses.new ≡ first_uses.old) × (second_uses.new ≡ second_uses.old)) }
    ensures finishes { Finishes first_words.now second_words.now (together first first_uses.old)
        (together second second_uses.old) middle.old output.old
        (outcome_of (written_of result) (together (first_of first result) first_uses.new) (together (second_of second result) second_uses.new)
        middle.new output.new) }
{
    call(
        first_words,
        first,
        first_uses,
        second_words,
        second,
        second_uses,
        &[],
        true,
        middle,
        output,
    )
}

// A call, likewise, for callers that can't lend their sessions.
fn call_by_value(
    first_words: &[u16],
    first: Session,
    second_words: &[u16],
    second: Session,
    piece: &[u16],
    ended: bool,
    middle: &mut [u16],
    output: &mut [u16],
) -> Result<Went<Session>, Refusal>
    ensures { let s₁ = session_of first in
        let s₂ = session_of second in
        outcome_of (written_of result) (first_of first result) (second_of second result) middle.new output.new
        ≡ by_tests first_words.now second_words.now s₁ s₂
        (admits_chain first_words.now second_words.now s₁ s₂ (length piece.now) (length middle.old) (length output.old))
        piece.now ended middle.old output.old }
{
    let mut first_uses = first.uses;
    let mut second_uses = second.uses;
    let went = call(
        first_words,
        first.kept,
        &mut first_uses,
        second_words,
        second.kept,
        &mut second_uses,
        piece,
        ended,
        middle,
        output,
    )?;
    Ok(with_uses(went, first_uses, second_uses))
}

// What a call comes to, with the counts of uses as it left them.
fn with_uses(went: Went<Kept>, first_uses: [u64; 34], second_uses: [u64; 34]) -> Went<Session>
    ensures { result ≡ joined went first_uses second_uses }
{
    Went {
        written: went.written,
        first: Session {
            kept: went.first,
            uses: first_uses,
        },
        second: Session {
            kept: went.second,
            uses: second_uses,
        },
    }
}

// A feed, for callers that can't lend their sessions.
#[tactic(auto, unfolding(reckoning::specs::Chain::chained))]
pub fn feed_by_value(
    first_words: &[u16],
    first: Session,
    second_words: &[u16],
    second: Session,
    piece: &[u16],
    middle: &mut [u16],
    output: &mut [u16],
) -> Result<Went<Session>, Refusal>
    ensures { Feeds first_words.now second_words.now first second piece.now middle.old output.old
        (outcome_of (written_of result) (first_of first result) (second_of second result) middle.new output.new) }
{
    call_by_value(
        first_words,
        first,
        second_words,
        second,
        piece,
        false,
        middle,
        output,
    )
}

// A finish, for callers that can't lend their sessions.
#[tactic(auto, unfolding(reckoning::specs::Chain::chained))]
pub fn finish_by_value(
    first_words: &[u16],
    first: Session,
    second_words: &[u16],
    second: Session,
    middle: &mut [u16],
    output: &mut [u16],
) -> Result<Went<Session>, Refusal>
    ensures { Finishes first_words.now second_words.now first second middle.old output.old
        (outcome_of (written_of result) (first_of first result) (second_of second result) middle.new output.new) }
{
    call_by_value(
        first_words,
        first,
        second_words,
        second,
        &[],
        true,
        middle,
        output,
    )
}

// A call, likewise, of sessions that are lent, and left as the call leaves them.
fn call_lent(
    first_words: &[u16],
    first: &mut Session,
    second_words: &[u16],
    second: &mut Session,
    piece: &[u16],
    ended: bool,
    middle: &mut [u16],
    output: &mut [u16],
) -> Result<Written, Refusal>
    ensures { let s₁ = session_of first.old in
        let s₂ = session_of second.old in
        outcome_of result first.new second.new middle.new output.new
        ≡ by_tests first_words.now second_words.now s₁ s₂
        (admits_chain first_words.now second_words.now s₁ s₂ (length piece.now) (length middle.old) (length output.old))
        piece.now ended middle.old output.old }
{
    let went = call(
        first_words,
        first.kept,
        &mut first.uses,
        second_words,
        second.kept,
        &mut second.uses,
        piece,
        ended,
        middle,
        output,
    )?;
    first.kept = went.first;
    second.kept = went.second;
    Ok(went.written)
}

// Feed of a chain: both sessions are lent, and left as the call leaves them. They are written where the call is accepted, and else only read.
#[tactic(auto, unfolding(reckoning::specs::Chain::chained))]
pub fn feed(
    first_words: &[u16],
    first: &mut Session,
    second_words: &[u16],
    second: &mut Session,
    piece: &[u16],
    middle: &mut [u16],
    output: &mut [u16],
) -> Result<Written, Refusal>
    ensures { Feeds first_words.now second_words.now first.old second.old piece.now
        middle.old output.old (outcome_of result first.new second.new middle.new output.new) }
{
    call_lent(
        first_words,
        first,
        second_words,
        second,
        piece,
        false,
        middle,
        output,
    )
}

// Finish of a chain, likewise.
#[tactic(auto, unfolding(reckoning::specs::Chain::chained))]
pub fn finish(
    first_words: &[u16],
    first: &mut Session,
    second_words: &[u16],
    second: &mut Session,
    middle: &mut [u16],
    output: &mut [u16],
) -> Result<Written, Refusal>
    ensures { Finishes first_words.now second_words.now first.old second.old middle.old
        output.old (outcome_of result first.new second.new middle.new output.new) }
{
    call_lent(
        first_words,
        first,
        second_words,
        second,
        &[],
        true,
        middle,
        output,
    )
}
