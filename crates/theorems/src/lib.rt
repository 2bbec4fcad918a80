// No function: what the codec promises as a whole is stated and proved in specs/.
#![tactic(auto)]
