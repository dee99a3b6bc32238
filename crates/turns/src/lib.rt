#![tactic(auto)]

// Stages in a row that hand columns on, and plans: what it means to fill the grid of stages and columns column by column or turn by turn. No code and no
// float: specs/ has the definitions, proofs/AnyOrder.antt the theorem that every allowed order of turns comes to the same,
// proofs/Rule.antt the laws of a plan's rule, turn by turn. Document 01, 'Plans'.
