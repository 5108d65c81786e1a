// Definitions and theorems only: the mirrored pair in lent tables. See specs/ and proofs/.
#![tactic(auto)]
