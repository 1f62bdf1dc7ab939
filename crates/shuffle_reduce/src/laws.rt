//! Laws of indexes.
ghost use Rattle.shuffle_reduce.specs.Indexed.{HaveOneIndex};

/// Texts have one index, whatever it was made of.
pub fn texts_have_one_index()
    ensures { HaveOneIndex }
{}
