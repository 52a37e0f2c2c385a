// The program from the table's bytes on.
ghost use Rattle.std.specs.Prelude.{◌≡◌, length};
ghost use Rattle.rules.specs.Answers.{number_of};
ghost use Rattle.program.specs.Text.{RefusalLine};
ghost use Rattle.program.specs.Turns.{Refused, Ran};

use crate::feeding::{Ending, convert_input};
use crate::print::{Handed, print};
use crate::text::refusal_line;
use machine::compile::compile;
use rules::refusal::Refusal;
use session::kept::fresh;
use words::layout::WORDS;

// Hands the line of a refusal to a write. That it is this line is asked of the caller.
fn print_refusal(rt: &HostRuntime, refusal: Refusal, line: &[u8]) -> Handed
    requires { RefusalLine (number_of refusal) line.now }
    ensures { result.size ≡ length line.now }
{
    print(rt, line)
}

// The table is refused: that is printed, and nothing is read.
fn refuse(rt: &HostRuntime, refusal: Refusal) -> Ending
    ensures { Refused (number_of refusal) result }
{
    let line = refusal_line(refusal);
    let handed = print_refusal(rt, refusal, line.as_slice());
    Ending {
        session: fresh(),
        going: false,
        failed: handed.failed,
        read: 0,
        handed: handed.size as u64,
    }
}

// "compiles, feeds standard input": what the program does with the table's bytes.
pub fn run(rt: &HostRuntime, table: &[u8]) -> Ending
    ensures { Ran table.now result }
{
    let mut words = [0u16; WORDS];
    match compile(table, &mut words) {
        Ok(()) => convert_input(rt, &words),
        Err(refusal) => refuse(rt, refusal),
    }
}
