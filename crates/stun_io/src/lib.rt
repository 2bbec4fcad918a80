// What the commands of the program share: words, bytes read, standard output, standard error, and what the program ends with.
#![tactic(auto)]

pub mod complaints;
pub mod input;
pub mod output;
pub mod status;
pub mod walk;
pub mod words;
