// Promises of document 01 that follow from the contracts alone, for every call that meets them. No code: the theorems are in
// proofs/, a file for each subject.
#![tactic(auto)]
