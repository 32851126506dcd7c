// The claim about inside and outside together, and its proof. No code.
#![tactic(auto)]
