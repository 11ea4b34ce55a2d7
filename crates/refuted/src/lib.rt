// Wrong cards, each refused by a demand of the crash theorem, and wrong planners. It has no code: they stand in specs/, why they fail in
// proofs/.
#![tactic(auto)]
