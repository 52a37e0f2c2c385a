// Tables of rules: the table check and direct conversion.
#![tactic(auto)]

pub mod convert;
pub mod layout;
pub mod load;
pub mod loaded;
pub mod mode;
pub mod output;
pub mod pattern;
pub mod plain;
pub mod reader;
pub mod record;
pub mod refusal;
pub mod safe;
