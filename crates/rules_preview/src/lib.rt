// No code: what a take would do, as definitions (specs/), with theorems about them (proofs/).
#![tactic(auto)]
