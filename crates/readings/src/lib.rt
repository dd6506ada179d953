// No code: what is proved of angle sheets beyond what the functions that read them need stands in proofs/.
#![tactic(auto)]
