// The published rule once more, in lists: definitions in specs/, which may be read in place of crates/rule/specs/Legal.antt, and in proofs/ that the
// contracts of offer, question and groups say just that; the face is proofs/Theorems.antt. No code.
#![tactic(auto)]
