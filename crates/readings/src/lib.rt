// What the definitions of crate reports come to: theorems in proofs/. No code.
#![tactic(auto)]
