// Numbers of states, classes and rules, each "a quantity of its own"; they become plain numbers only at the machine words.
#[derive(Clone, Copy, Debug, PartialEq, Eq)]
pub struct StateNo(pub u16);

#[derive(Clone, Copy, Debug, PartialEq, Eq)]
pub struct ClassNo(pub u16);

#[derive(Clone, Copy, Debug, PartialEq, Eq)]
pub struct RuleNo(pub u16);

// The default, as "block 32 is the default's".
pub const DEFAULT_RULE: RuleNo = RuleNo(32);
