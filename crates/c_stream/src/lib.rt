// Answers about tables, streams, messages and address descriptors as structs that C can hold.
#![tactic(auto)]

pub mod addresses;
pub mod messages;
pub mod streams;
pub mod tables;
