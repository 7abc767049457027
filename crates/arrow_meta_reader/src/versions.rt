//! The numbers of versions (`Schema.fbs`).
ghost use Rattle.std.specs.Prelude.{◌≡◌};
ghost use Rattle.arrow_meta_reader.specs.Versions.{metadata_version};

use crate::message::MetadataVersion;

/// The version of this number, None outside the profile: 0 is V1, 1 is V2 and 2 is V3.
pub(crate) fn metadata_version(number: u64) -> Option<MetadataVersion>
    ensures version { result ≡ metadata_version number }
{
    match number {
        3 => Some(MetadataVersion::V4),
        4 => Some(MetadataVersion::V5),
        // a number that is not a version's of the profile
        _ => None,
    }
}
