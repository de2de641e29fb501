/// The work and span of a run.
#[derive(Clone, Copy, Debug, PartialEq, Eq)]
pub struct Span {
    /// How many events there are.
    pub work: u64,
    /// How many of them are in the longest chain.
    pub span: u64,
}
