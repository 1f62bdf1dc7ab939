/// How many splits and workers a master has.
#[derive(Clone, Copy, Debug, PartialEq, Eq)]
pub struct Sizes {
    pub splits: usize,
    pub workers: usize,
}
