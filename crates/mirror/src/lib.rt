// Definitions and theorems only: the mirrored mesh and the mirrored move. See specs/ and proofs/.
#![tactic(auto)]
