// An input in two pieces: the table is compiled, both pieces are fed and the session is finished, one output after the other in one buffer.
ghost use Rattle.std.specs.Prelude.{◌≡◌};
ghost use Rattle.automaton.specs.Compile as Spec;
ghost use Rattle.reckoning.specs.Session as Reckoned;
ghost use Rattle.session.specs.Keeping.{session_of};
ghost use Rattle.station.specs.Two.{in_two};
ghost use Rattle.station.specs.Progress.{turn_at, turn_of};

use crate::course::Course;
use machine::compile::compile;
use rules::refusal::Refusal;
use session::kept::{Session, fresh};

// How far a conversion has come: what it answers, the session, and how many characters of the output are written.
#[derive(Clone, Copy, Debug, PartialEq, Eq)]
pub struct Progress {
    pub answer: Result<(), Refusal>,
    pub session: Session,
    pub written: usize,
}

// The table is compiled, and both pieces and the end go on from a fresh session.
fn convert(
    table: &[u8],
    first: &[u16],
    second: &[u16],
    words: &mut [u16],
    course: &mut Course<'_>,
) -> Result<(), Refusal>
    requires { (session_of course.old.session ≡ Reckoned.fresh) × (course.old.written ≡ 0) }
    ensures words_after { words.new ≡ (Spec.compile table.now words.old).words }
    ensures same_output { course.new.output.ghost_name ≡ course.old.output.ghost_name }
    ensures output_after { (turn_at result course.new.session course.new.written, course.new.output.now)
        ≡ in_two table.now first.now second.now words.old course.old.output.now }
{
    compile(table, words)?;
    course.feed(words, first)?;
    course.convert_rest(words, second)
}

// The table's conversion of the two pieces, joined.
pub fn convert_in_two(
    table: &[u8],
    first: &[u16],
    second: &[u16],
    words: &mut [u16],
    output: &mut [u16],
) -> Progress
    ensures words_after { words.new ≡ (Spec.compile table.now words.old).words }
    ensures output_after { (turn_of result, output.new)
        ≡ in_two table.now first.now second.now words.old output.old }
{
    let mut course = Course {
        session: fresh(),
        written: 0,
        output,
    };
    let answer = convert(table, first, second, words, &mut course);
    let Course {
        session,
        written,
        ..
    } = course;
    Progress {
        answer,
        session,
        written,
    }
}
