//! Laws of the items of modules, each the contract of a function that does nothing.

ghost use Rattle.vf_item.specs.Reading.{ReadingsAreItems};

/// What the functions of this crate read is a tree of the grammar, and each is read where no token follows that would go on with
/// it.
pub fn readings_are_items()
    ensures { ReadingsAreItems }
{}
