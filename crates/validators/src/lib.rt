// The records that a word gives, by what it was taken as: a file for each word, as in the Rust's validators. The TDH has a crate of its own.
// Document 01, "Records, in the order given". What was stored before the word is handed in.
#![tactic(auto)]

pub mod data_words;
pub mod ddw;
pub mod ihw;
pub mod tdt;
