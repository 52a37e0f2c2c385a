// Typed texts: an expression that 17 refuses ends the check, so that what stood before it is in the buffer and what stands behind it is not; past 17
// that is there, too.
use rules::layout::LOADED;
use rules::refusal::Refusal;
use typed::line::{feed_lines, feed_lines_past17};
use typed::output::feed_outputs;
use typed::sink::Records;

// A rule for `a`, and the character 65 to be written: their records.
const RULE: [u8; 8] = [1, 1, 0, 0, 0, 0, 0, 0];

const RANGE: [u8; 8] = [2, 0, 0, 0, 97, 0, 97, 0];

const OUTPUT: [u8; 8] = [3, 0, 0, 0, 65, 0, 0, 0];

// The second output's coefficient has 17 bits, and the third, 66, has a record of its own, as kind, three zeros and the sum.
const LINE: &[u8; 29] = b"\"a\" ==> [65, 32768 * x0, 66];";

fn characters<const N: usize>(text: &[u8; N]) -> [u16; N] {
    let mut characters = [0u16; N];
    for (i, byte) in text.iter().enumerate() {
        characters[i] = u16::from(*byte);
    }
    characters
}

#[test]
fn lines_end_at_a_seventeen(rt: HostRuntime) {
    let text = characters(LINE);
    let mut loaded = [0u16; LOADED];
    let mut buffer = [9u8; 32];
    let mut records = Records::new(&mut loaded, &mut buffer);
    assert_eq!(rt; feed_lines(&text, &mut records), Some(29));
    assert_eq!(rt; records.sink.step.err(), Some(Refusal::Expression));
    assert_eq!(rt; records.sink.count, 24);
    assert_eq!(rt; &buffer[..8], RULE.as_slice());
    assert_eq!(rt; &buffer[8..16], RANGE.as_slice());
    assert_eq!(rt; &buffer[16..24], OUTPUT.as_slice());
    assert_eq!(rt; &buffer[24..], [9u8; 8].as_slice());
}

#[test]
fn lines_go_on_past_a_seventeen(rt: HostRuntime) {
    let text = characters(LINE);
    let mut loaded = [0u16; LOADED];
    let mut buffer = [9u8; 32];
    let mut records = Records::new(&mut loaded, &mut buffer);
    assert_eq!(rt; feed_lines_past17(&text, &mut records), Some(29));
    assert!(rt; !records.sink.fine && records.sink.step.is_ok());
    assert_eq!(rt; records.sink.count, 32);
    assert_eq!(rt; &buffer[24..], [3u8, 0, 0, 0, 66, 0, 0, 0].as_slice());
}

#[test]
fn outputs_end_at_a_seventeen(rt: HostRuntime) {
    let text = characters(b"[65, 32768 * x0, 66];");
    let mut loaded = [0u16; LOADED];
    let mut buffer = [9u8; 32];
    let mut records = Records::new(&mut loaded, &mut buffer);
    records.feed(&RULE);
    records.feed(&RANGE);
    assert_eq!(rt; feed_outputs(&text, 0, &mut records), Some(20));
    assert_eq!(rt; records.sink.step.err(), Some(Refusal::Expression));
    assert_eq!(rt; records.sink.count, 24);
    assert_eq!(rt; &buffer[16..24], OUTPUT.as_slice());
    assert_eq!(rt; &buffer[24..], [9u8; 8].as_slice());
}
