// A conversion that goes on call by call, one output after the other in one buffer.
ghost use Rattle.std.specs.Prelude.{◌+◌, ◌≤◌, length};

use rules::refusal::Refusal;
use session::call::{Written, feed, finish};
use session::kept::Session;

// The session, the output and how many characters of it are written.
#[derive(Drop)]
pub struct Course<'a> {
    pub session: Session,
    pub written: usize,
    pub output: &'a mut [u16],
    ghost within: { written ≤ length output.now },
}

impl Course<'_> {
    ghost use Rattle.std.specs.Prelude.{◌≡◌};
    ghost use Rattle.session.specs.Keeping.{session_of};
    ghost use Rattle.session.specs.Promised.{answer_of};
    ghost use Rattle.station.specs.Two.{count_of, turn_by, feed_on, finish_on, rest_of};
    ghost use Rattle.station.specs.Progress.{turn_at};

    // What a call came to that was lent the output from `written` on. A session that is not open has come as far as it can.
    fn reach(&mut self, answer: Result<Written, Refusal>) -> Result<(), Refusal>
        requires { self.old.written + count_of (answer_of answer) ≤ length self.old.output.now }
        ensures turn { turn_at result self.new.session self.new.written ≡ turn_by self.old.written (answer_of answer) (session_of self.old.session) }
        ensures output { self.new.output ≡ self.old.output }
    {
        match answer {
            Ok(Written { count, .. }) => {
                self.written += count;
                Ok(())
            }
            Err(Refusal::Ended) => Ok(()),
            Err(refusal) => Err(refusal),
        }
    }

    // A feed into the output from `written` on.
    pub fn feed(&mut self, words: &[u16], piece: &[u16]) -> Result<(), Refusal>
        ensures same_output { self.new.output.ghost_name ≡ self.old.output.ghost_name }
        ensures output_after { (turn_at result self.new.session self.new.written, self.new.output.now)
            ≡ feed_on words.now piece.now (session_of self.old.session) self.old.written self.old.output.now }
    {
        let answer = feed(
            words,
            &mut self.session,
            piece,
            &mut self.output[self.written..],
        );
        self.reach(answer)
    }

    // A finish into the output from `written` on.
    pub fn finish(&mut self, words: &[u16]) -> Result<(), Refusal>
        ensures same_output { self.new.output.ghost_name ≡ self.old.output.ghost_name }
        ensures output_after { (turn_at result self.new.session self.new.written, self.new.output.now)
            ≡ finish_on words.now (session_of self.old.session) self.old.written self.old.output.now }
    {
        let answer = finish(words, &mut self.session, &mut self.output[self.written..]);
        self.reach(answer)
    }

    // The second piece and the end.
    pub fn convert_rest(&mut self, words: &[u16], second: &[u16]) -> Result<(), Refusal>
        ensures same_output { self.new.output.ghost_name ≡ self.old.output.ghost_name }
        ensures output_after { (turn_at result self.new.session self.new.written, self.new.output.now)
            ≡ rest_of words.now second.now (session_of self.old.session) self.old.written self.old.output.now }
    {
        self.feed(words, second)?;
        self.finish(words)
    }
}
