// Demands 1, 2 and 3, "any two results agree" and the bench table, stated over the contracts of `calls`. No code: specs/ has the definitions, proofs/ the
// theorems. Document 01, 'What the contracts have to say', 'Bench table'.
#![tactic(auto)]
