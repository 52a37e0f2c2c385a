// What is printed for a call, as bytes.
ghost use Rattle.std.specs.Prelude.{◌≡◌, ◌+◌, ◌*◌, ◌≤◌, length};
ghost use Rattle.reckoning.specs.Session as Spec;
ghost use Rattle.session.specs.Promised.{outcome_of};
ghost use Rattle.session.specs.Keeping.{meant_status, session_of};
ghost use Rattle.program.specs.Text.{AcceptedLines, Printed};
ghost use Rattle.program.specs.bridge.Call.{Counted};

use crate::text::{put, put_lines, refusal_line, status_line};
use arrayvec::ArrayVec;
use rules::refusal::Refusal;
use session::call::Written;
use session::kept::{Session, Status};

// "Consumed is received less held."
fn consumed(session: &Session) -> u64
    ensures { result ≡ Spec.consumed (session_of session.now) }
{
    let kept = &session.kept;
    kept.received.saturating_sub(u64::from(kept.held_count))
}

// The lines of the characters written and the session's last line.
fn put_accepted<const N: usize>(
    written: &[u16],
    status: Status,
    session: &Session,
    text: &mut ArrayVec<u8, N>,
)
    requires { 5 * length written.now + 64 ≤ N }
    ensures { AcceptedLines written.now (meant_status status) (Spec.consumed (session_of session.now)) (session_of session.now).steps text.new.items }
{
    let consumed = consumed(session);
    let steps = session.kept.tally.steps;
    let line = status_line(status, consumed, steps);
    text.clear();
    put_lines(written, text);
    put(line.as_slice(), text);
}

// What is printed for a call that left this output, in place of what the text held.
pub fn put_call<const N: usize>(
    answer: Result<Written, Refusal>,
    session: &Session,
    output: &[u16],
    text: &mut ArrayVec<u8, N>,
)
    requires { Counted answer (length output.now) × (5 * length output.now + 64 ≤ N) }
    ensures { Printed (outcome_of answer session.now output.now) text.new.items }
{
    match answer {
        Ok(Written { count, status }) => put_accepted(&output[..count], status, session, text),
        Err(refusal) => {
            let line = refusal_line(refusal);
            text.clear();
            put(line.as_slice(), text);
        }
    }
}
