// The crash theorem over the card's definitions. It has no code: what is claimed stands in specs/, why it is true in proofs/.
#![tactic(auto)]
