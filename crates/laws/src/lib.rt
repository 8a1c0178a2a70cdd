// The laws that the crates above share: specs and proofs, and no code.

#![tactic(auto)]
