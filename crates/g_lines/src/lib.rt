// Definitions and theorems about the lines of letter G; no code.
#![tactic(auto)]
