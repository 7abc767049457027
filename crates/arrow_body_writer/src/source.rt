//! The origin of the raw values of a column: an array, the values of a dictionary from an index on,
//! or the lists or structs above it.

ghost use Rattle.std.specs.Prelude.{◌≡◌, ◌<◌, IfSome, MatchOption, OnErr, OnOk, None, Some, []};
ghost use Rattle.std.specs.Prelude.{◌∷◌, length, slice_get};
ghost use Rattle.std.specs.List.{AllByRecursion};
ghost use Rattle.arrow_types.specs.Field.{width};
ghost use Rattle.arrow_types.specs.View.{type_view};
ghost use Rattle.arrow_data.specs.Column.{type_of_field};
ghost use Rattle.arrow_body_laws.specs.Laws.{raws_of};
ghost use Rattle.arrow_body_laws.specs.Raws.{AreRaws, nulls_under};
ghost use Rattle.arrow_body_laws.specs.Stored.{fields_of_columns};
ghost use Rattle.arrow_body_writer.specs.Sent.{LeadDown, form_of_column, sent_along};
ghost use Rattle.arrow_body_writer.specs.Sent.{visible_children};
ghost use Rattle.arrow_body_slots.specs.Slice.{IsSlice, values_in};
ghost use Rattle.arrow_body_writer.specs.Source.{IsSource, column_in, rest_of};
ghost use Rattle.arrow_body_writer.specs.Whole.{AreSentWhole};

use crate::steps::ChildPath;
use crate::visitor::SlotVisitor;
use crate::walk::take_along;
use crate::whole::whole_below;
use arrow_body_slots::{ColumnSlice, all_slots};
use arrow_data::{Array, Dictionary};
use arrow_layout::form::{Form, ListForm, node_form};
use arrow_types::{DataType, Encoding, Field};

/// A column that is stored.
#[derive(Clone, Copy)]
pub(crate) enum ColumnSource<'a> {
    /// The column of an array.
    Slots(&'a Array),
    /// The values of a dictionary from this index on, in a column without an encoding: none if the
    /// dictionary has no more values than that (`Message.fbs`, table `DictionaryBatch`).
    Rest(&'a Dictionary, usize),
    /// The items of the lists of a column, with this many nulls under a null list (Columnar Format,
    /// "Variable-size List Layout", "Fixed-Size List Layout").
    Items(u32, &'a ColumnSource<'a>),
    /// This field of the structs of a column, null if these are (Columnar Format, "Struct Layout").
    Field(&'a ColumnSource<'a>, usize),
}

/// The number of nulls that are sent to the child under a null list: the length of each list if all
/// have the same length, 0 otherwise (Columnar Format, "Fixed-Size List Layout").
fn nulls_under(list: ListForm) -> u32
    ensures { result ≡ nulls_under list }
{
    match list {
        ListForm::Offsets(_) => 0,
        ListForm::Fixed(size) => size,
    }
}

/// The child field at an index.
fn child_field(data_type: &DataType, k: usize) -> &Field
    requires { k < width (type_view data_type.now).children }
    ensures { type_of_field (type_view data_type.now).children k
        ≡ Some (type_view result.now.data_type, result.now.dictionary) }
{
    &data_type.children()[k]
}

impl<'a> ColumnSource<'a> {
    /// The type of the values.
    pub(crate) fn data_type(&self) -> &DataType
        requires { IsSource self.now }
        ensures { type_view result.now ≡ (column_in self.now).data_type }
    {
        match self {
            ColumnSource::Slots(array) => array.data_type(),
            ColumnSource::Rest(dictionary, _) => dictionary.data_type(),
            ColumnSource::Items(_, lists) => &child_field(lists.data_type(), 0).data_type,
            ColumnSource::Field(structs, k) => &child_field(structs.data_type(), *k).data_type,
        }
    }

    /// How the column refers to its dictionary.
    pub(crate) fn encoding(&self) -> Option<Encoding>
        requires { IsSource self.now }
        ensures { result ≡ (column_in self.now).encoding }
    {
        match self {
            ColumnSource::Slots(array) => array.encoding().copied(),
            ColumnSource::Rest(..) => None,
            ColumnSource::Items(_, lists) => child_field(lists.data_type(), 0).dictionary,
            ColumnSource::Field(structs, k) => child_field(structs.data_type(), *k).dictionary,
        }
    }

    /// The form of the column's own node.
    pub(crate) fn form(&self) -> Form
        requires { IsSource self.now }
        ensures { result ≡ form_of_column (column_in self.now) }
    {
        node_form(self.data_type(), self.encoding())
    }

    /// All slots of the array, if the column is an array's.
    pub(crate) fn own_slots(&self) -> Option<ColumnSlice<'a>>
        ensures slots { IfSome result (λ slice. IsSlice slice) }
        ensures sent { IfSome result (λ slice. values_in slice ≡ (column_in self.now).raw) }
    {
        match self {
            ColumnSource::Slots(array) => Some(all_slots(array)),
            _ => None,
        }
    }

    /// The children of an array, if they are sent unsliced.
    pub(crate) fn whole_below(&self) -> Option<&'a [Array]>
        ensures { IfSome result (λ children. AreSentWhole (column_in self.now) children.now) }
    {
        match self {
            ColumnSource::Slots(array) => whole_below(array),
            _ => None,
        }
    }

    /// The number of columns that are sent below the column's own node: 0 below a dictionary-encoded
    /// one.
    pub(crate) fn width(&self) -> usize
        requires source { IsSource self.now }
        requires raws { AreRaws (fields_of_columns (column_in self.now ∷ [])) (raws_of (column_in self.now ∷ [])) }
        ensures { result ≡ length (visible_children (column_in self.now)) }
    {
        match self.encoding() {
            Some(_) => 0,
            None => self.data_type().children().len(),
        }
    }

    /// The column at an index among these.
    pub(crate) fn below(&self, k: usize) -> ColumnSource<'_>
        requires source { IsSource self.now }
        requires raws { AreRaws (fields_of_columns (column_in self.now ∷ [])) (raws_of (column_in self.now ∷ [])) }
        requires inside { k < length (visible_children (column_in self.now)) }
        ensures source { IsSource result }
        ensures same { slice_get (visible_children (column_in self.now)) k ≡ Some (column_in result) }
    {
        match self.form() {
            Form::Lists(list) => ColumnSource::Items(nulls_under(list), self),
            _ => ColumnSource::Field(self, k),
        }
    }

    /// Takes what all slots of the column send along the steps.
    #[cycle(send)]
    pub(crate) fn send<V: SlotVisitor>(
        &self,
        visitor: &mut V,
        steps: &ChildPath<'_>,
    ) -> Result<(), V::Fault>
        requires source { IsSource self.now }
        requires down { LeadDown steps.now (column_in self.now).data_type (column_in self.now).encoding }
        requires room { AllByRecursion (V.has_room visitor.old)
            (sent_along steps.now (column_in self.now).raw) }
        ensures { OnOk result
            (V.takes visitor.old visitor.new (sent_along steps.now (column_in self.now).raw)) }
    {
        match self {
            ColumnSource::Slots(array) => take_along(visitor, all_slots(array), steps),
            ColumnSource::Rest(dictionary, from) => take_rest(visitor, dictionary, *from, steps),
            ColumnSource::Items(nulls, lists) => lists.send(
                visitor,
                &ChildPath::Items(*nulls, &*steps),
            ),
            ColumnSource::Field(structs, k) => structs.send(
                visitor,
                &ChildPath::Field(*k, &*steps),
            ),
        }
    }
}

/// Takes what the values of a dictionary from an index on send along the steps, array by array.
fn take_rest<V: SlotVisitor>(
    visitor: &mut V,
    dictionary: &Dictionary,
    from: usize,
    steps: &ChildPath<'_>,
) -> Result<(), V::Fault>
    requires down { LeadDown steps.now dictionary.now.data_type None }
    requires room { AllByRecursion (V.has_room visitor.old)
        (sent_along steps.now (rest_of dictionary.now from).raw) }
    ensures { OnOk result
        (V.takes visitor.old visitor.new (sent_along steps.now (rest_of dictionary.now from).raw)) }
{
    let mut i = from;
    while i < dictionary.len() {
        let (array, start) = dictionary.value(i);
        let stop = array.len();
        take_along(visitor, ColumnSlice { array, start, stop }, steps)?;
        i += stop - start;
    }
    Ok(())
}
