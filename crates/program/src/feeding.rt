// Standard input goes to the machine in pieces, and what each call came to is printed.
ghost use Rattle.std.specs.Prelude.{◌≡◌, ◌≤◌, length, take, IfOk};
ghost use Rattle.session.specs.Promised.{answer_of, outcome_of};
ghost use Rattle.session.specs.Keeping.{session_of};
ghost use Rattle.program.specs.Turns.{call_on, waits, TurnOn, Converted};
ghost use Rattle.program.specs.bridge.Piece.{Taken};

use crate::failing::tell;
use crate::print::{Handed, print};
use crate::report::put_call;
use arrayvec::ArrayVec;
use rules::refusal::Refusal;
use session::call::{Written, feed, finish};
use session::kept::{Session, Status, fresh};
use std::io;
use std::io::Read;

// The most bytes that a read gives.
const PIECE: usize = 16384;

// The output has room for 8 characters for each of a piece and of the 8 held at most.
const OUTPUT: usize = 8 * (PIECE + 8);

// The text has room for the lines of these characters, and for the last line.
const TEXT: usize = 5 * OUTPUT + 64;

type Text = ArrayVec<u8, TEXT>;

// The session after a call, and whether it waits for more: both are known after every call.
#[derive(Clone, Copy)]
struct Turn {
    session: Session,
    going: bool,
}

// How a piece or the whole conversion ended: the last session, whether it still waits for more, whether a read or a write failed, and how many
// bytes were read and handed to writes in all. No Result, since all of it is known where a write failed, too.
#[derive(Clone, Copy)]
pub struct Ending {
    pub session: Session,
    pub going: bool,
    pub failed: bool,
    pub read: u64,
    pub handed: u64,
}

// "one character a byte", into the first places. The characters are lent and not returned, so that they are not copied.
fn widen(bytes: &[u8], characters: &mut [u16])
    requires { length bytes.now ≤ length characters.old }
    ensures { take (length bytes.now) characters.new ≡ bytes.now }
{
    for (i, byte) in bytes.iter().enumerate() {
        characters[i] = u16::from(*byte);
    }
}

// A feed of the bytes that were read, or a finish at the input's end.
fn call_on(
    words: &[u16],
    session: &mut Session,
    bytes: &[u8],
    output: &mut [u16],
) -> Result<Written, Refusal>
    requires { length bytes.now ≤ 16384 }
    ensures { outcome_of result session.new output.new
        ≡ call_on words.now (session_of session.old) bytes.now output.old }
{
    if bytes.is_empty() {
        return finish(words, session, output);
    }
    let mut characters = [0u16; PIECE];
    widen(bytes, &mut characters);
    feed(words, session, &characters[..bytes.len()], output)
}

// Whether the session waits for more after a call with this answer.
fn waits_after(answer: Result<Written, Refusal>) -> bool
    ensures { result ≡ waits (answer_of answer) }
{
    answer.is_ok_and(|written| written.status == Status::Open)
}

// The program between a read and a write: a call on the bytes that were read, and the text to print for it.
fn take_turn(
    words: &[u16],
    mut session: Session,
    bytes: &[u8],
    output: &mut [u16; OUTPUT],
    text: &mut Text,
) -> Turn
    requires { length bytes.now ≤ 16384 }
    ensures { TurnOn words.now (session_of session) bytes.now
        (session_of result.session) result.going text.new.items }
{
    let answer = call_on(words, &mut session, bytes, output);
    put_call(answer, &session, output, text);
    Turn {
        session,
        going: waits_after(answer),
    }
}

// Hands the text of a turn on these bytes to a write. That it is the text of this turn is asked of the caller.
fn print_turn(
    rt: &HostRuntime,
    words: &[u16],
    session: Session,
    bytes: &[u8],
    turn: Turn,
    text: &[u8],
) -> Handed
    requires { TurnOn words.now (session_of session) bytes.now (session_of turn.session) turn.going text.now }
    ensures { result.size ≡ length text.now }
{
    print(rt, text)
}

// Reads a piece, takes its turn and prints the text. Where nothing can be read, the session is as it was.
fn convert_piece(
    rt: &HostRuntime,
    words: &[u16],
    session: Session,
    output: &mut [u16; OUTPUT],
    text: &mut Text,
) -> io::Result<Ending>
    ensures { IfOk result (Taken words.now session) }
{
    let mut bytes = [0u8; PIECE];
    let read = rt.stdin().read(&mut bytes)?;
    let piece = &bytes[..read];
    let turn = take_turn(words, session, piece, output, text);
    let handed = print_turn(rt, words, session, piece, turn, text.as_slice());
    Ok(Ending {
        session: turn.session,
        going: turn.going,
        failed: handed.failed,
        read: read as u64,
        handed: handed.size as u64,
    })
}

// "feeds standard input". The loop ends with the input, and with one that goes on for ever by refusal 14: each turn that leaves the session
// waiting has received more.
pub fn convert_input(rt: &HostRuntime, words: &[u16]) -> Ending
    ensures { Converted words.now result }
{
    let mut output = [0u16; OUTPUT];
    let mut text = Text::new();
    let mut ending = Ending {
        session: fresh(),
        going: true,
        failed: false,
        read: 0,
        handed: 0,
    };
    while ending.going && !ending.failed {
        match convert_piece(rt, words, ending.session, &mut output, &mut text) {
            Ok(piece) => {
                ending = Ending {
                    read: ending.read + piece.read,
                    handed: ending.handed + piece.handed,
                    ..piece
                };
            }
            Err(error) => {
                tell(rt, "standard input", error);
                return Ending {
                    failed: true,
                    ..ending
                };
            }
        }
    }
    ending
}
