// No code: what graphs, schemas and the four rules mean stands in specs/, and what is proved of that in proofs/.
#![tactic(auto)]
