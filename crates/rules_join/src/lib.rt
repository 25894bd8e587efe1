// No code: document 02's joining of two forms, as definitions (specs/), with theorems about it (proofs/).
#![tactic(auto)]
