// The history of a log, document 01's record book: its registers, entries and text, and the history that entries name. No code.
#![tactic(auto)]
