// Which columns a turn takes: `count` from `from` on, of a block of n. Scratch has sixteen regions of `size` numbers.
#[derive(Clone, Copy)]
pub struct Span {
    pub size: usize,
    pub n: usize,
    pub from: usize,
    pub count: usize,
}
