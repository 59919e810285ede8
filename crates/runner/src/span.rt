// Ticks in which one level ran, or none: from a tick on, that many.
#[derive(Clone, Copy, PartialEq, Eq, Debug)]
pub struct Span {
    pub runs: Option<usize>,
    pub from: u32,
    pub length: u32,
}
