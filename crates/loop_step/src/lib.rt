// Loop's step: the rings of the next level and their masks. Definitions and theory; the code stands in the crates above.
#![tactic(auto)]
