/// How far a job is.
#[derive(Clone, Copy, Debug, PartialEq, Eq)]
pub struct Progress {
    pub splits: usize,
    pub parts: usize,
    /// How many splits and how many parts are not done.
    pub open_splits: u32,
    pub open_parts: u32,
    /// How many waves were started, and how many deaths were seen.
    pub waves: u32,
    pub deaths: u32,
}

/// Who is told how far a job is.
pub trait Observer {
    /// Once a turn of the calling thread.
    fn seen(&self, progress: &Progress);
}

/// Nobody is told.
#[derive(Clone, Copy, Debug)]
pub struct Unobserved;

impl Observer for Unobserved {
    fn seen(&self, _progress: &Progress) {}
}
