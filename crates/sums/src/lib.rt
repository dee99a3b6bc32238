// Sums side by side: sixteen columns of one output, or outputs of one column. Each sum keeps its own order; side by side none waits for another, and
// the compiler makes four additions one. Carries the inner loops of conv.rs. Document 01, 'The recurrence': add product by product.
#![tactic(auto)]

pub mod lanes;
pub mod row;
