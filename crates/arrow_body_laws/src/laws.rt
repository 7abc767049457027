//! Laws of the definitions only.

ghost use Rattle.arrow_body_laws.specs.Laws.{ColumnsHoldRaws, NamesAreNotStored, OneBody};
ghost use Rattle.arrow_body_laws.specs.Laws.{StoredIsRead, StoredIsCanonical};

/// The raw values of arrays can be stored if each type has the children that it needs, and each
/// index has its entry in all dictionaries that have the values which the arrays list.
pub fn columns_hold_raws()
    ensures { ColumnsHoldRaws }
{}

/// Columns are stored as the fields that they are columns of: names and nullability are not in a
/// body.
pub fn names_are_not_stored()
    ensures { NamesAreNotStored }
{}

/// The stored form of raw values is read as them: there are as many nodes and buffers as the fields
/// take, they are well-formed in the bytes, texts are UTF-8, each valid index has its value by all
/// dictionaries that have the entries, the columns have these raw values, and the number of bytes
/// is the one that the size gives.
pub fn stored_is_read()
    ensures { StoredIsRead }
{}

/// A stored body holds nothing that no value needs, and nothing of the content under a null.
pub fn stored_is_canonical()
    ensures { StoredIsCanonical }
{}

/// A body that is canonical, well-formed as a reader requires, and read as these raw values is the
/// stored one: two such bodies at one alignment are equal.
pub fn one_body()
    ensures { OneBody }
{}
