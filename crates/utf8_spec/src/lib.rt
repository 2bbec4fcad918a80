// UTF-8 and the scalar values that it encodes: definitions and laws alone, in specs/. The calls are those of utf8.
#![tactic(auto)]
