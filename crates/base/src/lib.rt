// No function: definitions and laws that several crates cite stand in specs/.
#![tactic(auto)]
