// The sizes and the places of the numbers of a loaded table.
ghost use Rattle.std.specs.Prelude.{◌≡◌, ◌+◌, ◌*◌};

// The sizes of a group's numbers, each beside the definition of that name in `meaning`: an entry (a sort, a constant and eight coefficients), a
// block (K, anchored, output count, eight entries), and the 33 blocks of 32 rules and the default.
pub const ENTRY: usize = 10;

pub const BLOCK: usize = 3 + 8 * ENTRY;

pub const BLOCKS: usize = 33 * BLOCK;

// The default's group, which is the last, its block, and its output count.
pub const DEFAULT_GROUP: usize = 32;

// The number of a marked default's pairs, which have no block.
pub const PAIR_GROUP: usize = 33;

pub const DEFAULT_BLOCK: usize = DEFAULT_GROUP * BLOCK;

pub const DEFAULT_OUTPUTS: usize = DEFAULT_BLOCK + 2;

// A loaded table's array: the blocks, how many ranges each position has, the ranges, and the upper halves of the output characters' constants.
// Where its later parts begin, and its length.
pub const SLOTS_FROM: usize = BLOCKS;

pub const RANGES_FROM: usize = SLOTS_FROM + 33 * 8;

pub const HIGHS_FROM: usize = RANGES_FROM + 33 * 64;

pub const LOADED: usize = HIGHS_FROM + 33 * 8;

// The default's first position, and the end of its range.
pub const DEFAULT_SLOT: usize = SLOTS_FROM + 32 * 8;

pub const DEFAULT_HIGHEST: usize = RANGES_FROM + 32 * 64 + 1;

// A number of 32 bits by its halves.
pub fn number_of_halves(low: u16, high: u16) -> u32
    ensures { result ≡ low + 65536 * high }
{
    u32::from(low) + 65536 * u32::from(high)
}
