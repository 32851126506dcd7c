// Laws of the integers, and no code: proofs/ has them.
#![tactic(auto)]
