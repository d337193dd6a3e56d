// What a program in C or Rust links: each question of documents 01 and 02, over numbers, slices and structs by value.
// Each asks its crate and tells the answer as a struct of `c_answer`, `c_stream`, `c_invoice`, `c_month`, `c_mender` or `c_till`.
#![tactic(auto)]

mod addresses;
mod books;
mod fields;
mod invoices;
mod menders;
mod messages;
mod months;
mod numbers;
mod streams;
mod tables;
mod tills;
mod version;
