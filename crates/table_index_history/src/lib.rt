// Whole lists of calls on a table and its index, as definitions and laws; it has no code.
#![tactic(auto)]
