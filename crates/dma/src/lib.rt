// The card on the lent memory: who may touch a byte of it, and how bytes are moved.
#![tactic(auto)]

pub mod permit;
pub mod transfer;
