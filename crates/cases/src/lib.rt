// No code: what 01 computes by hand, the rows at the edges and the whole case, follows from the definitions. Stated in specs/, computed in proofs/.
#![tactic(auto)]
