// The archive for C: each call of the crates for C, exported under its name with the clauses that it has there, and no code of its own.
#![tactic(auto)]

mod addresses;
mod messages;
mod naming;
mod parts;
mod readings;
mod sums;
mod values;
