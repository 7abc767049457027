//! Laws of the definitions, which no code implements. Each is the contract of a function that does
//! nothing.

ghost use Rattle.arrow_data.specs.Laws.{OneChild, OneField};

/// There is one column of field `k` of a struct: its clauses determine its type, its encoding, its
/// slots and its dictionaries, even if no slot of the struct shows a value.
pub fn one_field()
    ensures single { OneField }
{}

/// There is one column of the items of lists: its clauses determine its type, its encoding, its
/// slots and its dictionaries, even if no list has an item.
pub fn one_child()
    ensures single { OneChild }
{}
