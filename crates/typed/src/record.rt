// The eight bytes of each kind of record.
ghost use Rattle.std.specs.Prelude.{◌≡◌};
ghost use Rattle.meaning.specs.Table.{unmarked};
ghost use Rattle.meaning.specs.Records.{rule_record, range_record, output_record, term_record, default_record};
ghost use Rattle.typed.specs.Grammar.{range};

// Kind 1: a rule's length and whether it is anchored.
pub fn rule_record(size: u8, anchored: bool) -> [u8; 8]
    ensures { result ≡ rule_record size anchored }
{
    [1, size, u8::from(anchored), 0, 0, 0, 0, 0]
}

// Kind 2: a position, its lowest and its highest character.
pub fn range_record(position: u8, lowest: u16, highest: u16) -> [u8; 8]
    ensures { result ≡ range_record position (range lowest highest) }
{
    let low = lowest.to_le_bytes();
    let high = highest.to_le_bytes();
    [2, position, 0, 0, low[0], low[1], high[0], high[1]]
}

// Kind 3: an output character's constant.
pub fn output_record(constant: i32) -> [u8; 8]
    ensures { result ≡ output_record constant }
{
    let x = constant.to_le_bytes();
    [3, 0, 0, 0, x[0], x[1], x[2], x[3]]
}

// Kind 4: a position and its coefficient.
pub fn term_record(position: u8, coefficient: i16) -> [u8; 8]
    ensures { result ≡ term_record (record { position = position; coefficient = coefficient }) }
{
    let x = coefficient.to_le_bytes();
    [4, position, 0, 0, x[0], x[1], 0, 0]
}

// Kind 5: the default, without a mark.
pub fn default_record() -> [u8; 8]
    ensures { result ≡ default_record unmarked }
{
    [5, 0, 0, 0, 0, 0, 0, 0]
}
