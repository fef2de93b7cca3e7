// A text that is read line by line, of any grammar. No code: the definitions are in specs/, and in proofs/ that every text has one outcome.
#![tactic(auto)]
