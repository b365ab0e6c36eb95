// Definitions of the calls on a book and of the routine machine, and laws about them. No code.
#![tactic(auto)]
