//! What the nodes of a batch refer to.

use arrow_data::DictionaryMap;

/// The bytes that contain the buffers, and the dictionaries that indices refer to.
#[derive(Clone, Copy)]
pub(crate) struct BodyContext<'a> {
    pub(crate) body: &'a [u8],
    pub(crate) dictionaries: DictionaryMap<'a>,
}
