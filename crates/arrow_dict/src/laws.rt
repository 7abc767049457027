//! Laws of only the definitions: a store is a finite map from ids to dictionaries, and in a schema
//! each id has one type.

ghost use Rattle.arrow_dict.specs.Laws.{NamesEach, PlacedElsewhere, PlacedHere, StaysRising};

/// What is placed for an id is what is listed for it.
pub fn placed_here()
    ensures { PlacedHere }
{}

/// What is listed for other ids is unchanged.
pub fn placed_elsewhere()
    ensures { PlacedElsewhere }
{}

/// Rising ids still rise.
pub fn stays_rising()
    ensures { StaysRising }
{}

/// Each dictionary-encoded field of a schema, and not only the first one, has the type that is
/// named for its id.
pub fn names_each()
    ensures { NamesEach }
{}
