// Rules typed at the station: a text of 16-bit characters is read to table records, or refused.
#![tactic(auto)]

pub mod line;
pub mod output;
pub mod pattern;
pub mod record;
pub mod sink;
pub mod symbol;
pub mod text;
