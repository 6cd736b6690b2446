// Two copies: no code, the theorem on their run order alone. specs/Copies.antt says it, proofs/Theorem.antt proves it.
#![tactic(auto)]
