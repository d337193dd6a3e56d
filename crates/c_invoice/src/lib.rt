// Answers about invoices and their fields as structs that C can hold.
#![tactic(auto)]

pub mod fields;
pub mod invoices;
