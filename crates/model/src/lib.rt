// No code: the papers as definitions (specs/) and the laws about them (proofs/).
#![tactic(auto)]
