// What the default does, and pairs of units.
ghost use Rattle.std.specs.Prelude.{◌≡◌};
ghost use Rattle.meaning.specs.Table.{present, least, is_first, is_second, is_pair};
ghost use Rattle.meaning.specs.Record.{mark_of};
ghost use Rattle.rules.specs.bridge.Modes.{the_mode, marked_mode};

// Where no rule fits: nothing is chosen; the default takes one unit; under the mark it takes a pair where one comes next, else one unit.
#[derive(Clone, Copy, Debug, PartialEq, Eq)]
pub enum Mode {
    Absent,
    Single,
    Paired,
}

impl Mode {
    // There is a default.
    pub fn is_present(self) -> bool
        ensures { result ≡ present (the_mode self) }
    {
        self != Mode::Absent
    }

    // "E is then at least 1"
    pub fn least_expansion(self) -> usize
        ensures { result ≡ least (the_mode self) }
    {
        usize::from(self == Mode::Paired)
    }
}

// The mode of a default record: "Under that mark .. the default takes both".
impl From<bool> for Mode {
    ghost from_gives = { λ marked mode. mode ≡ marked_mode (mark_of marked) };

    fn from(marked: bool) -> Mode {
        if marked { Mode::Paired } else { Mode::Single }
    }
}

// "a first unit 55296 to 56319"
pub fn is_first(unit: u16) -> bool
    ensures { result ≡ is_first unit }
{
    matches!(unit, 55296..=56319)
}

// "and a second 56320 to 57343"
fn is_second(unit: u16) -> bool
    ensures { result ≡ is_second unit }
{
    matches!(unit, 56320..=57343)
}

// The two units are a pair.
pub fn is_pair(first: u16, second: u16) -> bool
    ensures { result ≡ is_pair first second }
{
    is_first(first) && is_second(second)
}
