// The mathematics of the step: definitions in specs/, theorems in proofs/, whose face is proofs/Theorems.antt. No code.
#![tactic(auto)]
