// Demand 3 of document 00: what is proved about lists of calls on one log, in specs/Claim.antt. No code.
#![tactic(auto)]
