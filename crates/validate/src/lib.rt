// The state test of answer 15, and look-ups in the tables.
#![tactic(auto)]

pub mod accept;
pub mod find;
pub mod live;
mod objects;
pub mod regions;
mod sends;
mod together;
