// A loaded table: its array, how many rules it has, and what its default does.
ghost use Rattle.std.specs.Prelude.{◌≡◌, ℕ, ◌*◌, ◌<◌, ◌≤◌, true};
ghost use Rattle.meaning.specs.Table.{present};
ghost use Rattle.meaning.specs.Block.{at, block_size};
ghost use Rattle.meaning.specs.bridge.Flat.{Flat};
ghost use Rattle.rules.specs.bridge.Modes.{the_mode};

use crate::layout::LOADED;
use crate::mode::Mode;

#[derive(Clone, Copy)]
pub struct Loaded<'a> {
    pub words: &'a [u16; LOADED],
    pub rules: usize,
    pub mode: Mode,
    ghost flat: { Flat words.now },
    ghost few: { rules ≤ 32 },
}

// A loaded table that the check accepts: each rule takes a character or more, and the default takes one.
#[derive(Clone, Copy)]
pub struct Accepted<'a> {
    pub table: Loaded<'a>,
    ghost positive: { (g : ℕ) → g < table.rules → 1 ≤ at table.words.now (block_size * g) },
    ghost single: { present (the_mode table.mode) ≡ true → at table.words.now (32 * block_size) ≡ 1 },
}
