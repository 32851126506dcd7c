// The ray's top counts are those that the ordered lists of the open segments give: laws, and no code.
#![tactic(auto)]
