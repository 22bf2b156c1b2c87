//! Worked examples of the definitions, each a theorem that the gate computes.
//!
//! Given: the definitions of `cal_base` and `cal_model`. Gives: nothing; no crate stands on this one, so an example costs its own
//! check and no other. `proofs/Lib.antt` lists them.
#![tactic(auto)]
