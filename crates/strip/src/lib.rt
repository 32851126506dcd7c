// The theory of the sweep, and no code: segments in a strip, the band between x and x + 1. specs/Strip.antt has their order just right of x,
// specs/Neighbours.antt the ordered list of those that span it; proofs/ have their laws, up to the theorem that a sweep in which only neighbours are compared
// finds every wrong meeting.
#![tactic(auto)]
