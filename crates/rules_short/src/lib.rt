// No code: document 02's short sheets, as definitions (specs/), with theorems about them (proofs/).
#![tactic(auto)]
