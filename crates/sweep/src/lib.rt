// The sweep over the starts, with the law that it fills as the ray does, and no code: specs/ and proofs/ have them.
#![tactic(auto)]
