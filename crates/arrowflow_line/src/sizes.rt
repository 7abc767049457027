//! Sizes as people type them: a number of bytes, or of units of bytes.

ghost use Rattle.std.specs.Prelude.{◌<◌, ◌^◌, MatchOption, map};
ghost use Rattle.arrowflow_line.specs.Sizes.{IsPartedBy, IsSizeIn, LacksSize, unit_of};

/// The units, each with its number of bytes.
static UNITS: [(&str, u64); 12] = [
    ("KiB", 1 << 10),
    ("MiB", 1 << 20),
    ("GiB", 1 << 30),
    ("TiB", 1 << 40),
    ("KB", 1_000),
    ("MB", 1_000_000),
    ("GB", 1_000_000_000),
    ("TB", 1_000_000_000_000),
    ("K", 1 << 10),
    ("M", 1 << 20),
    ("G", 1 << 30),
    ("T", 1 << 40),
];

/// The size in bytes that a text represents, within these bounds; `None` if it represents no such
/// size.
pub(crate) fn size_in(text: &str, least: u64, most: u64) -> Option<u64>
    ensures { MatchOption result (LacksSize least most text.now) (IsSizeIn least most text.now) }
{
    let (number, bytes) = parted(text, &UNITS);
    let Ok(count) = number.parse::<u64>() else {
        return None;
    };
    match count.checked_mul(bytes) {
        Some(size) if least <= size && size <= most => Some(size),
        Some(_) | None => None,
    }
}

/// A text without the first of these units with which it ends, and that unit's number of bytes: 1
/// if it ends with none.
fn parted<'a>(text: &'a str, units: &[(&str, u64)]) -> (&'a str, u64)
    ensures { IsPartedBy (map unit_of units.now) text.now result.0.now result.1 }
{
    for (unit, bytes) in units {
        if let Some(number) = text.strip_suffix(*unit) {
            return (number, *bytes);
        }
    }
    (text, 1)
}
