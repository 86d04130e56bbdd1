// No code: the demands, of the public calls as their contracts give them (specs/), proved (proofs/).
#![tactic(auto)]
