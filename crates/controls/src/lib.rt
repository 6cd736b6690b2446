// Examples of the theorem on two copies, by computing: its premises can be met, and neither that committed slots
// stay nor that the copies agree can be left out. No code.
#![tactic(auto)]
