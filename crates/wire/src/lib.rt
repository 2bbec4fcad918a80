// Class and method, type number, transaction ID.
#![tactic(auto)]

pub mod method;
pub mod refusal;
pub mod transaction_id;
pub mod types;
