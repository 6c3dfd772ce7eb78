// Whole lists of calls on a table, as definitions and laws; it has no code.
#![tactic(auto)]
