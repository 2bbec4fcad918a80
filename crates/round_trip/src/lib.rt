// The round trip of whole messages: definitions and theorems alone, in specs/.
#![tactic(auto)]
