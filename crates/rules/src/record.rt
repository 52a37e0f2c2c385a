// The record reader: eight bytes to a record, or refusal 2.
ghost use Rattle.std.specs.Prelude.{◌≡◌, ◌+◌, ◌*◌};
ghost use Rattle.meaning.specs.Record.{decode};
ghost use Rattle.rules.specs.bridge.Readings.{record_of};

use crate::layout::number_of_halves;

#[derive(Clone, Copy, Debug, PartialEq, Eq)]
pub enum Record {
    Rule {
        size: u8,
        anchored: bool,
    },
    Range {
        position: u8,
        lowest: u16,
        highest: u16,
    },
    Output {
        constant: u32,
    },
    Term {
        position: u8,
        coefficient: u16,
    },
    Default {
        marked: bool,
    },
    Hexadecimal {
        position: u8,
        shift: u8,
    },
}

// A number of two bytes, the low one first.
fn word(low: u8, high: u8) -> u16
    ensures { result ≡ low + 256 * high }
{
    u16::from(low) + 256 * u16::from(high)
}

impl Record {
    // The record of eight bytes: its kind first, and none where refusal 2 is due. It is inlined with `load_records`.
    #[inline(always)]
    #[tactic(auto, using(crate::proofs::Laws::Records::records))]
    pub fn decode(bytes: &[u8; 8]) -> Option<Record>
        ensures { record_of result ≡ decode bytes.now }
    {
        match *bytes {
            [1, size @ 1..=8, anchor @ 0..=1, 0, 0, 0, 0, 0] => Some(Record::Rule {
                size,
                anchored: anchor == 1,
            }),
            [2, position @ 0..=7, 0, 0, a, b, c, d] if word(a, b) <= word(c, d) => {
                Some(Record::Range {
                    position,
                    lowest: word(a, b),
                    highest: word(c, d),
                })
            }
            [3, 0, 0, 0, a, b, c, d] => Some(Record::Output {
                constant: number_of_halves(word(a, b), word(c, d)),
            }),
            [4, position @ 0..=7, 0, 0, a, b, 0, 0] if word(a, b) != 0 => Some(Record::Term {
                position,
                coefficient: word(a, b),
            }),
            [5, mark @ 0..=1, 0, 0, 0, 0, 0, 0] => Some(Record::Default { marked: mark == 1 }),
            [6, position @ 0..=7, shift @ (0 | 4 | 8 | 12), 0, 0, 0, 0, 0] => {
                Some(Record::Hexadecimal { position, shift })
            }
            _ => None,
        }
    }
}
