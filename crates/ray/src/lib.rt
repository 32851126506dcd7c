// The ray's counts and fills, with their laws, and no code: specs/ and proofs/ have them.
#![tactic(auto)]
