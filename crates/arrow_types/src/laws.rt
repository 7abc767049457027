//! The values of the constants, stated apart from any code.

ghost use Rattle.std.specs.Prelude.{◌≡◌, ◌-◌, ◌^◌};

use crate::limits::Limits;
use crate::schema::Schema;

/// The ceilings of the limits, the offset past which no frame may end, and the limits that every
/// schema keeps to.
pub fn fixed_numbers()
    ensures metadata { Limits.METADATA_CEILING ≡ 2 ^ 30 }
    ensures body { Limits.BODY_CEILING ≡ 2 ^ 40 }
    ensures rows { Limits.ROWS_CEILING ≡ 2 ^ 31 - 1 }
    ensures last_place { Limits.LAST_PLACE ≡ 2 ^ 62 }
    ensures levels { Schema.MAX_LEVELS ≡ 32 }
    ensures fields { Schema.MAX_FIELDS ≡ 65536 }
    ensures width { Schema.MAX_WIDTH ≡ 2 ^ 31 - 1 }
    ensures pairs { Schema.MAX_PAIRS ≡ 65536 }
{}
