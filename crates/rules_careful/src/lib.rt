// No code: what is ours and not the documents', as definitions (specs/), with theorems about them (proofs/).
#![tactic(auto)]
