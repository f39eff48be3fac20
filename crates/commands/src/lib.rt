// Control commands: document 01, "Control commands". Rules: rules/specs/Control.antt; contracts: specs/Control.antt.
#![tactic(auto)]

pub mod control;
mod control_qp;
mod destroy;
pub mod pages;
mod query;
