// A step of refinement seen through its masks, whatever the step: definitions and theory. The code stands in the crates above.
#![tactic(auto)]
