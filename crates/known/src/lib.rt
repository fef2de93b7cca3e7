// The small designs of document 01 with known outcomes, P1 to P10, proved about the definitions of crate `rule`. No code:
// the table is specs/Rows.antt, what it states is specs/Holds.antt, and the theorem is proofs/Table.antt.
#![tactic(auto)]
