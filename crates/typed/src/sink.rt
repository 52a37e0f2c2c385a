// Where the records go as they come out: through the table check, one at a time, and into the lent buffer.
ghost use Rattle.std.specs.Prelude.{◌≡◌, ◌≤◌};
ghost use Rattle.rules.specs.Answers.{outcome_of};
ghost use Rattle.typed.specs.bridge.Stream.{put as put_at, Held};

use rules::layout::LOADED;
use rules::load::load_records;
use rules::reader::Reader;
use rules::refusal::Refusal;

// What is kept by value while a text is read: whether no refusal 17 was noted so far; the table check's summary or refusal, 17 where that ended it;
// and the bytes of the records that the check took (counted where they don't fit, too, so this is no length of the buffer).
#[derive(Clone, Copy)]
pub struct Sink {
    pub fine: bool,
    pub step: Result<Reader, Refusal>,
    pub count: usize,
    pub ghost ready: { Held (outcome_of step) count },
}

// Where the records go: what is kept, with the table check's array and the buffer that are lent.
#[derive(Drop)]
pub struct Records<'a> {
    pub sink: Sink,
    pub loaded: &'a mut [u16; LOADED],
    pub buffer: &'a mut [u8],
}

// A record's bytes at a place of the buffer, if they fit.
fn put(buffer: &mut [u8], place: usize, bytes: &[u8; 8])
    requires { place ≤ 1000000 }
    ensures { buffer.new ≡ put_at place bytes.now buffer.old }
{
    if place + 8 <= buffer.len() {
        buffer[place..place + 8].copy_from_slice(bytes);
    }
}

impl<'a> Records<'a> {
    ghost use Rattle.typed.specs.bridge.Stream.{feed as fed, beginning};
    ghost use Rattle.typed.specs.bridge.Answers.{state_of, SameLoans};

    // Nothing read yet.
    pub fn new(loaded: &'a mut [u16; LOADED], buffer: &'a mut [u8]) -> Records<'a>
        ensures state { state_of result ≡ beginning loaded.old buffer.old buffer.entry.ghost_name }
        ensures same_array { result.loaded.ghost_name ≡ loaded.entry.ghost_name }
    {
        Records {
            sink: Sink {
                fine: true,
                step: Ok(Reader::start()),
                count: 0,
            },
            loaded,
            buffer,
        }
    }

    // One record. A check that has refused takes no more. It stands by itself, since each reader that calls it would take the stack for it.
    #[inline(never)]
    pub fn feed(&mut self, bytes: &[u8; 8])
        ensures state { state_of self.new ≡ fed bytes.now (state_of self.old) }
        ensures same_loans { SameLoans self.old self.new }
    {
        let Ok(reader) = self.sink.step else {
            return;
        };
        self.sink.step = load_records(reader, bytes, self.loaded);
        if self.sink.step.is_ok() {
            put(self.buffer, self.sink.count, bytes);
            self.sink.count += 8;
        }
    }
}
