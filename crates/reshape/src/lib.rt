// Three edits of a mesh: an edge split, a face split, an edge flipped. Definitions and theory; the code stands in the crates above.
#![tactic(auto)]
