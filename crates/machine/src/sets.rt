// Sets of rules kept as numbers, rule r by bit r.
ghost use Rattle.std.specs.Prelude.{Bool, ◌&&◌, not, ◌≡◌, ℕ, ◌+◌, ◌*◌, ◌^◌, ◌≤◌, ◌<◌, eqb, ltb, length};
ghost use Rattle.std.specs.Iterator.{YieldsFirstBy, item_count};
ghost use Rattle.lists.specs.Lists.{filter, up_to};
ghost use Rattle.meaning.specs.Table.{Absent, in_ranges};
ghost use Rattle.meaning.specs.Block.{at, block_size, blocks_size};
ghost use Rattle.meaning.specs.bridge.Flat.{ranges_at, table_at};
ghost use Rattle.automaton.specs.States.{first_number, longer_rules, accept_of, accept_at_end_of};
ghost use Rattle.automaton.specs.bridge.Build.{members_from, state_of};
ghost use Rattle.words.specs.bridge.Readings.{word_of};
ghost use Rattle.machine.specs.bridge.Tables.{bare_table};

use rules::layout::BLOCK;
use rules::loaded::Loaded;
use words::numbers::RuleNo;

// The set of all rules.
pub fn all_rules(rules: usize) -> u32
    requires { rules ≤ 32 }
    ensures { (members_from 0 rules result ≡ up_to rules) × (result < 2 ^ rules) }
{
    ((1u64 << rules) - 1) as u32
}

// The rules of a set, the lowest first. Only these are looked at: most sets have few of the rules.
#[derive(Drop)]
struct Members(u32);

impl Iterator for Members {
    type Item = RuleNo;

    ghost next_gives = { YieldsFirstBy (λ r. r.0) (λ s. members_from 0 32 s.0) };

    ghost remaining = { item_count (λ s. members_from 0 32 s.0) };

    fn next(&mut self) -> Option<RuleNo> {
        if self.0 == 0 {
            return None;
        }
        let lowest = self.0.trailing_zeros();
        self.0 -= 1 << lowest;
        Some(RuleNo(lowest as u16))
    }
}

// The rule is longer than the depth, and takes the character there.
fn goes_on(table: &Loaded<'_>, rule: RuleNo, depth: usize, c: u16) -> bool
    requires { rule.0 < 32 }
    ensures { result ≡ ltb depth (at table.now.words.now (block_size * rule.0)) && in_ranges (ranges_at table.now.words.now (8 * rule.0 + depth)) c }
{
    let group = rule.0 as usize;
    depth < usize::from(table.words[BLOCK * group]) && table.in_ranges(8 * group + depth, c)
}

// The rules of the set that are longer than the depth and take the character there.
pub fn longer_rules(table: &Loaded<'_>, set: u32, depth: usize, c: u16) -> u32
    requires { set < 2 ^ table.now.rules }
    ensures { (members_from 0 table.now.rules result
        ≡ longer_rules (bare_table table.now) (state_of table.now.rules depth set) c)
        × (result < 2 ^ table.now.rules) }
{
    let mut longer = 0;
    for rule in Members(set) {
        if goes_on(table, rule, depth, c) {
            longer += 1 << rule.0;
        }
    }
    longer
}

// The lowest rule of the set that passes the test.
fn lowest<F: Fn(RuleNo) -> bool>(set: u32, passes: F) -> Option<RuleNo>
    requires { (r : _) → r.0 < 32 → F.pre passes r }
    ensures first { (p : ℕ → Bool) → ((r : _) (b : _) → r.0 < 32 → F.post passes r b → b ≡ p r.0) →
        word_of result ≡ first_number (filter p (members_from 0 32 set)) }
    ensures below { word_of result ≤ 32 }
{
    // no `find`: its law asks what the test says of any rule, and this one is known of the set's rules alone
    for rule in Members(set) {
        if passes(rule) {
            return Some(rule);
        }
    }
    None
}

// The rule ends at the depth.
fn ends_at(loaded: &[u16], rule: RuleNo, depth: usize) -> bool
    requires { (blocks_size ≤ length loaded.now) × (rule.0 < 32) }
    ensures { result ≡ eqb (at loaded.now (block_size * rule.0)) depth }
{
    usize::from(loaded[BLOCK * rule.0 as usize]) == depth
}

// The rule stands only at the end of the input.
fn anchored(loaded: &[u16], rule: RuleNo) -> bool
    requires { (blocks_size ≤ length loaded.now) × (rule.0 < 32) }
    ensures { result ≡ eqb (at loaded.now (block_size * rule.0 + 1)) 1 }
{
    loaded[BLOCK * rule.0 as usize + 1] == 1
}

// The rule that a state accepts at once, by the blocks alone.
pub fn accept_of(loaded: &[u16], rules: usize, set: u32, depth: usize) -> Option<RuleNo>
    requires { (blocks_size ≤ length loaded.now) × (rules ≤ 32) × (set < 2 ^ rules) }
    ensures word { word_of result
        ≡ accept_of (table_at loaded.now rules Absent) (state_of rules depth set) }
    ensures below { word_of result ≤ 32 }
{
    lowest(set, |rule| {
        ends_at(loaded, rule, depth) && !anchored(loaded, rule)
    })
}

// The rule that a state accepts where the input ends, by the blocks alone.
pub fn accept_at_end_of(loaded: &[u16], rules: usize, set: u32, depth: usize) -> Option<RuleNo>
    requires { (blocks_size ≤ length loaded.now) × (rules ≤ 32) × (set < 2 ^ rules) }
    ensures word { word_of result
        ≡ accept_at_end_of (table_at loaded.now rules Absent) (state_of rules depth set) }
    ensures below { word_of result ≤ 32 }
{
    lowest(set, |rule| ends_at(loaded, rule, depth))
}

// The word of a state for a rule that it accepts: "end + 1, go + 1; 0 for none".
pub fn accept_word(accept: Option<RuleNo>) -> u16
    requires { word_of accept ≤ 32 }
    ensures { result ≡ word_of accept }
{
    accept.map_or(0, |rule| rule.0 + 1)
}
