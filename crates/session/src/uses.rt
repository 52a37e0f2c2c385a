// How often each rule, the default and a pair were used: the counts as a run changes them, and the test of those that a session brings.
ghost use Rattle.std.specs.Prelude.{not, [], ◌∷◌, ◌≡◌, ◌+◌, ◌*◌, ◌≤◌, ◌<◌, eqb, length, get_or};
ghost use Rattle.lists.specs.Lists.{all, sum_below};
ghost use Rattle.lists.specs.Decide.{all_of, implies};
ghost use Rattle.meaning.specs.Block.{at};
ghost use Rattle.meaning.specs.Direct.{limit};
ghost use Rattle.automaton.specs.Sound.{rule_count, block_at, used, sound};
ghost use Rattle.reckoning.specs.Uses.{sound_uses};
ghost use Rattle.session.specs.bridge.Counting.{bumped, less};

use rules::mode::Mode;
use words::numbers::RuleNo;
use words::read::Machine;

// "pairs have a count of their own"
pub const PAIR_RULE: RuleNo = RuleNo(33);

// The group was used so many times more.
pub fn count_uses(uses: &mut [u64; 34], group: RuleNo, times: u64)
    requires { (length uses.old ≡ 34) × (group.0 < 34) × (get_or uses.old group.0 0 + times < 18446744073709551616) }
    ensures { uses.new ≡ bumped uses.old group.0 times }
{
    let place = group.0 as usize;
    uses[place] += times;
}

// The counts of rules that the machine lacks are 0. They are joined bit by bit, without a branch for each.
fn all_unused(others: &[u64]) -> bool
    ensures { result ≡ all (eqb 0) others.now }
{
    let mut joined: u64 = 0;
    for times in others {
        joined |= *times;
    }
    joined == 0
}

// What is left of a number of characters without those that a rule of so many took in so many uses, if they were as many. The product is made only
// where it can't overflow: to test that, `checked_mul` divides.
fn without_rule(left: u64, times: u64, size: u64) -> Option<u64>
    requires { (left ≤ limit) × (1 ≤ size) × (size ≤ 8) }
    ensures { result ≡ less left (times * size) }
{
    if times > left {
        return None;
    }
    left.checked_sub(times * size)
}

// Without those that all the rules and the pairs took, "the sum over rules of count times K" and 2 a pair: those that the default took.
fn left_to_default(machine: Machine<'_>, uses: &[u64; 34], consumed: u64) -> Option<u64>
    requires { consumed ≤ limit }
    ensures { result
        ≡ less consumed (sum_below (rule_count machine.entry.words.all.now) (λ g. at uses.now g * at (block_at machine.entry.words.all.now g) 0) + at uses.now 33 * 2) }
{
    let mut left = consumed;
    for rule in 0..machine.words.rule_count() {
        let size = machine.words.group_size(RuleNo(rule as u16)) as u64;
        left = without_rule(left, uses[rule], size)?;
    }
    without_rule(left, uses[33], 2)
}

// The "counts of rules or a default that the machine lacks" are 0; that of pairs is "0 without the mark".
#[tactic(auto, unfolding(lists::specs::Decide::all_of))]
fn defaults_sound(machine: Machine<'_>, singles: u64, pairs: u64) -> bool
    ensures { result ≡ all_of (implies (not (used (at machine.entry.words.all.now 5))) (eqb singles 0) ∷ implies (not (eqb (at machine.entry.words.all.now 5) 2)) (eqb pairs 0) ∷ []) }
{
    // by the mode, of which each has its own test
    match machine.words.default_mode() {
        Mode::Absent => singles == 0 && pairs == 0,
        Mode::Single => pairs == 0,
        Mode::Paired => true,
    }
}

// The counts are sound for so many characters consumed.
pub fn uses_sound(machine: Machine<'_>, uses: &[u64; 34], consumed: u64) -> bool
    requires { consumed ≤ limit }
    ensures { result ≡ sound_uses machine.entry.words.all.now uses.now consumed }
{
    left_to_default(machine, uses, consumed) == Some(uses[32])
        && all_unused(&uses[machine.words.rule_count()..32])
        && defaults_sound(machine, uses[32], uses[33])
}
