// Families of combinations: this crate is definitions (specs/) and laws (proofs/).
#![tactic(auto)]
