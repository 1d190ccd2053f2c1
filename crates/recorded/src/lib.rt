// Records of cases: how they are read, what they hold, and what is said of them.
#![tactic(auto)]

pub mod input;
pub mod lists;
pub mod record;
pub mod reply;
pub mod run;
pub mod tally;
pub mod verdict;
