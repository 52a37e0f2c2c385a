// "Refusals": why a call is refused.
ghost use Rattle.std.specs.Prelude.{◌≡◌};
ghost use Rattle.rules.specs.Answers.{number_of};

// The numbered refusals of document 01 and of the requests, one for every answer that can be refused.
#[derive(Clone, Copy, Debug, PartialEq, Eq)]
pub enum Refusal {
    // the table's length is no multiple of 8
    TableLength = 1,
    // an unknown kind, a field outside its own range, a byte that must be zero and isn't, lowest above highest
    Field = 2,
    // a record where its kind can't come, a position not below K, ranges out of order, a term's position repeated
    Place = 3,
    // a position skipped, or unfilled when the ranges end
    Unfilled = 4,
    // no rule
    NoRule = 5,
    // a 33rd rule, a fifth range of a position, a ninth output character
    TooMany = 6,
    // an output value may leave 0 to 65535
    Value = 7,
    // a 65th class
    Classes = 8,
    // a 257th state
    States = 9,
    // too few words for compiling
    ShortWords = 10,
    // words too few or not sound
    UnsoundWords = 11,
    // a session that is not sound
    UnsoundSession = 12,
    // a session that is not open
    Ended = 13,
    // more characters than a session or a conversion takes
    TooLong = 14,
    // an output or a buffer of records that is too short
    ShortOutput = 15,
    // a typed text that is not as the grammar says
    Grammar = 16,
    // an expression that leaves its limits
    Expression = 17,
    // a chain's middle buffer that is too short
    ShortMiddle = 18,
}

impl Refusal {
    // "A refusal answers its number."
    pub fn number(self) -> u8
        ensures { result ≡ number_of self }
    {
        self as u8
    }
}
