// Images of modules as files, and what the programs that read them say of a word that names none.
#![tactic(auto)]

pub mod faults;
pub mod files;
pub mod print;
pub mod words;
