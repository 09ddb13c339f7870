// Definitions and laws on tests and lists that every crate may use: no code.
#![tactic(auto)]
