//! The settings of a writer on a connection.

ghost use Rattle.std.specs.Prelude.{◌≡◌};
ghost use Rattle.arrow_stream_writer.specs.Terms.{terms_of};

use arrow_body_writer::Align;
use arrow_data::Batch;
use arrow_dict::Updates;
use arrow_types::{Limits, Schema};
use std::alloc::Global;
use std::rc::Rc;

/// The settings of a writer on a connection: its allocator, its limits, its schema, how it sends
/// extended dictionaries, and to how many bytes it pads.
#[derive(Drop)]
pub(crate) struct Settings {
    pub(crate) alloc: Global,
    pub(crate) limits: Limits,
    pub(crate) schema: Rc<Schema>,
    pub(crate) updates: Updates,
    pub(crate) align: Align,
}

impl Settings {
    /// Keeps the schema of a batch, which is equal, in place of its own. The next batch mostly
    /// shares it with this one, and then it is compared with itself: only one block of memory is
    /// read, not two.
    pub(crate) fn share_schema(&mut self, batch: &Batch)
        requires { batch.now.schema ≡ self.old.schema.value }
        ensures { terms_of self.new ≡ terms_of self.old }
    {
        if let Ok(schema) = batch.shared_schema().clone() {
            self.schema = schema;
        }
    }
}
