// What is printed, as bytes. A text has a fixed room, and what is put goes to its end.
ghost use Rattle.std.specs.Prelude.{◌++◌, ◌≡◌, ◌+◌, ◌*◌, ◌≤◌, ◌<◌, length};
ghost use Rattle.arrayvec.specs.ArrayVec.{array_vec_len};
ghost use Rattle.rules.specs.Answers.{number_of};
ghost use Rattle.session.specs.Keeping.{meant_status};
ghost use Rattle.program.specs.Text.{hex_digit, hex_line, hex_lines, Numbered, EndLine, StatusLine, RefusalLine};

use arrayvec::ArrayVec;
use rules::refusal::Refusal;
use session::kept::Status;

// A line with a word and two numbers at most.
pub type Line = ArrayVec<u8, 64>;

// The code of an upper-case hexadecimal digit.
fn hex_digit(d: u16) -> u8
    requires { d < 16 }
    ensures { result ≡ hex_digit d }
{
    b"0123456789ABCDEF"[usize::from(d)]
}

// "four upper-case hexadecimal digits on a line"
fn hex_line(c: u16) -> [u8; 5]
    ensures { result ≡ hex_line c }
{
    [
        hex_digit(c / 4096),
        hex_digit(c / 256 % 16),
        hex_digit(c / 16 % 16),
        hex_digit(c % 16),
        b'\n',
    ]
}

// The characters' lines.
#[tactic(auto, unfolding(crate::specs::Text::hex_lines))]
pub fn put_lines<const N: usize>(characters: &[u16], text: &mut ArrayVec<u8, N>)
    requires { array_vec_len text.old + 5 * length characters.now ≤ N }
    ensures lines { text.new.items ≡ text.old.items ++ hex_lines characters.now }
    ensures size { array_vec_len text.new ≡ array_vec_len text.old + 5 * length characters.now }
{
    for c in characters {
        put(&hex_line(*c), text);
    }
}

// The bytes as they are.
pub fn put<const N: usize>(bytes: &[u8], text: &mut ArrayVec<u8, N>)
    requires { array_vec_len text.old + length bytes.now ≤ N }
    ensures bytes { text.new.items ≡ text.old.items ++ bytes.now }
    ensures size { array_vec_len text.new ≡ array_vec_len text.old + length bytes.now }
{
    text.try_extend_from_slice(bytes).unwrap();
}

// A blank and the number in decimal. `write!` would say what it wrote only where it answers Ok, and not that it does.
fn put_number<const N: usize>(n: u64, text: &mut ArrayVec<u8, N>)
    requires { array_vec_len text.old + 21 ≤ N }
    ensures numbered { Numbered text.old.items n text.new.items }
    ensures size { array_vec_len text.new ≤ array_vec_len text.old + 21 }
{
    let mut digits = [0u8; 20];
    let places = io::decimal(n, &mut digits);
    text.push(b' ');
    put(&digits[..places], text);
}

// A word and two numbers on a line.
fn end_line(word: &[u8], consumed: u64, steps: u64) -> Line
    requires { length word.now ≤ 8 }
    ensures { EndLine word.now consumed steps result.items }
{
    let mut line = Line::new();
    put(word, &mut line);
    put_number(consumed, &mut line);
    put_number(steps, &mut line);
    line.push(b'\n');
    line
}

// The last line of a session with this status, which is empty while it is open.
pub fn status_line(status: Status, consumed: u64, steps: u64) -> Line
    ensures { StatusLine (meant_status status) consumed steps result.items }
{
    match status {
        Status::Open => Line::new(),
        Status::Closed => end_line(b"end", consumed, steps),
        Status::Stopped => end_line(b"stop", consumed, steps),
    }
}

// The line of a refusal with this number, whatever the number.
pub fn number_line(number: u8) -> Line
    ensures { RefusalLine number result.items }
{
    let mut line = Line::new();
    put(b"refused", &mut line);
    put_number(u64::from(number), &mut line);
    line.push(b'\n');
    line
}

// The line of a refusal.
pub fn refusal_line(refusal: Refusal) -> Line
    ensures { RefusalLine (number_of refusal) result.items }
{
    number_line(refusal.number())
}
