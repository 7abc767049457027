//! A body in memory that columns share.

ghost use Rattle.std.specs.Prelude.{◌≡◌, IfOk};

use bytes::Bytes;
use std::alloc::{AllocError, Global};
use std::marker::Model;
use std::rc::Rc;

/// The bytes of a body, which the arrays of its nodes share. A clause sees them as a list.
///
/// References are counted here, within one thread, and not by [`Bytes`]: a count that all threads
/// may change costs an array more than everything else that it stores.
#[derive(Drop)]
pub struct SharedBody {
    bytes: Rc<Bytes>,
}

impl Model for SharedBody {
    ghost use Rattle.std.specs.Prelude.{ℕ, List};

    ghost Value = { List ℕ };

    ghost view = { λ body. body.bytes.value };
}

impl SharedBody {
    /// A body with these bytes, which are not copied. `AllocError` if an allocation failed.
    pub fn new(alloc: Global, bytes: Bytes) -> Result<SharedBody, AllocError>
        ensures { IfOk result (λ body. body ≡ bytes) }
    {
        let bytes = Rc::new(alloc, bytes)?;
        Ok(SharedBody { bytes })
    }

    /// The bytes.
    pub fn as_slice(&self) -> &[u8]
        ensures { result.now ≡ self.now }
    {
        self.bytes.as_slice()
    }
}

impl Clone for SharedBody {
    ghost is_clone = { λ body copy. copy ≡ body };

    fn clone(&self) -> Result<SharedBody, AllocError> {
        let bytes = self.bytes.clone()?;
        Ok(SharedBody { bytes })
    }
}
