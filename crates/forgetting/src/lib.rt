// No code: promise 3, stated in specs/ and proved in proofs/ over the definitions of the calls.
#![tactic(auto)]
