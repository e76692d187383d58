// A key list, in the order of its first cells: definitions and theorems about the calls of crates below, and no code.
#![tactic(auto)]
