// Many fixes in one call (request Q-8): the file is opened once, and each fix is looked up, through an atlas or none, in what the earlier ones left of the lent lists.
#![tactic(auto)]

pub mod many;
mod zero;
