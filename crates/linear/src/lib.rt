// Linear codes over any field: definitions and laws for the specs and proofs of other crates; no code.
#![tactic(auto)]
