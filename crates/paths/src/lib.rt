// Theory only: least sums of walks over any land, the neighbour rule, and what an engine that fills a table has to keep. It is in specs/ and proofs/; no function is here.

#![tactic(auto)]
