#![tactic(auto)]

// Lists by a rule for each place, parts of a list and regions of one buffer: the words that every contract on lent memory uses. No code: specs/ has
// the definitions, proofs/ the laws, once for every element type and width.
