// Session: the classes of a character, the table of those of the first characters, and the characters of a text.
use machine::compile::compile;
use session::prepared::{Prepared, fill_classes};
use session::text::Text;
use words::layout::WORDS;
use words::numbers::ClassNo;
use words::read::Machine;

// A rule for one character, `a` to `c`, which writes nothing. Classes start at 0, at the range's lowest and behind its highest: at 0, 97 and 100.
const TABLE: [u8; 16] = [1, 1, 0, 0, 0, 0, 0, 0, 2, 0, 0, 0, 97, 0, 99, 0];

// The first 98 characters have their classes in the table, so that `b`, 98, has its class worked out where `a` has it looked up. The character
// 353 has the low byte of `a`.
#[test]
fn characters_have_their_classes(rt: HostRuntime) {
    let mut words = [0u16; WORDS];
    assert_eq!(rt; compile(&TABLE, &mut words), Ok(()));
    let machine = Machine::new(&words).expect(&rt, "compiled words are sound");
    let mut table = [0u16; 114];
    fill_classes(machine, 98, &mut table);
    let mode = machine.words.default_mode();
    let prepared = Prepared {
        machine,
        classes: &table[..98],
        mode,
    };
    for (c, class) in [
        (0, 0),
        (96, 0),
        (97, 1),
        (98, 1),
        (99, 1),
        (100, 2),
        (353, 2),
        (65535, 2),
    ] {
        assert_eq!(rt; prepared.class_in(c), ClassNo(class), "of {c}");
        assert_eq!(rt;
            prepared.class_between(c),
            ClassNo(class),
            "of {c} between words"
        );
    }
}

// The characters below 97 are of class 0, the three of the range of class 1, and 100 is of the last class.
#[test]
fn first_characters_have_their_classes(rt: HostRuntime) {
    let mut words = [0u16; WORDS];
    assert_eq!(rt; compile(&TABLE, &mut words), Ok(()));
    let machine = Machine::new(&words).expect(&rt, "compiled words are sound");
    let mut table = [9u16; 117];
    fill_classes(machine, 101, &mut table);
    assert_eq!(rt; &table[..97], [0u16; 97].as_slice());
    assert_eq!(rt; &table[97..101], [1, 1, 1, 2].as_slice());
}

// Those given back first: three, and then the two of the piece. At the text's end nothing is unread.
#[test]
fn parts_of_a_text_are_unread(rt: HostRuntime) {
    let text = Text {
        given: &[97, 98, 8364],
        piece: &[233, 55357],
    };
    for (at, rest) in [
        (0, [97u16, 98, 8364].as_slice()),
        (2, [8364].as_slice()),
        (3, [233, 55357].as_slice()),
        (4, [55357].as_slice()),
        (5, [].as_slice()),
    ] {
        assert!(rt; at <= text.len(), "{at}");
        assert_eq!(rt; text.unread(at), rest, "from {at}");
    }
}

#[test]
fn characters_of_a_text_have_their_places(rt: HostRuntime) {
    let text = Text {
        given: &[97, 98, 8364],
        piece: &[233, 55357],
    };
    for (i, c) in [97, 98, 8364, 233, 55357].iter().enumerate() {
        assert!(rt; i < text.len(), "{i}");
        assert_eq!(rt; text.character(i), *c, "at {i}");
    }
}
