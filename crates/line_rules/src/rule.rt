/// What the lines before a line ask of a name in it.
#[derive(Clone, Copy)]
pub enum Rule {
    /// A name that is used is declared, and of its kind.
    Declared,
    /// A name that is declared is not taken.
    Free,
}
