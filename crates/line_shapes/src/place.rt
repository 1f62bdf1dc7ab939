/// What a used name is of.
#[derive(Clone, Copy)]
pub enum Kind {
    Centre,
    Rack,
    Worker,
    Split,
    /// A split or a worker, which has a price.
    Priced,
}

/// What stands in a place after a keyword.
#[derive(Clone, Copy)]
pub enum Place {
    /// A name that the line declares.
    New,
    /// A name that the line uses.
    Used(Kind),
    /// A number, at least and at most so much.
    Number(u64, u64),
    /// All that is left of the line, spaces and all.
    Text,
}
