// Lists that know nothing of drawings: definitions and laws, and no code: specs/ and proofs/ have them.
#![tactic(auto)]
