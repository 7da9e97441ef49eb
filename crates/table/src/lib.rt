// The table of worked examples has no code: proofs/Table.antt holds its rows, each proved by computing both sides.
#![tactic(auto)]
