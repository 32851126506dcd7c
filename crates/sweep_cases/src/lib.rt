// Small drawings that the definition of the sweep is computed on, and no code: proofs/ has them.
#![tactic(auto)]
