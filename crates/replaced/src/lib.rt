// A cell replaced in its table: definitions and theorems about the calls of the crates below, and no code.
#![tactic(auto)]
