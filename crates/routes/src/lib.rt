// Theory only: the best route over any ground, the rank of a tile, and going down the ranks. It is in specs/ and proofs/; no function is here.

#![tactic(auto)]
