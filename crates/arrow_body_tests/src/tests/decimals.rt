//! Columns and dictionaries of decimals, laid out as a body: rows as in `stored`. A number of four
//! bytes is a quarter of a decimal of 128 bits; the lowest bits come first.

use super::stored::{are_rests, are_stored};

static COLUMNS: [&str; 9] = [
    "numbers of 128 bits: decimal[128:38:2] | 2/0 | #, \
    #125 0 0 0 0 0 0 0 0 0 0 0 0 0 0 0 \
    131 255 255 255 255 255 255 255 255 255 255 255 255 255 255 255 \
    => 8 | 2/0 | # @0, \
    #125 0 0 0 0 0 0 0 0 0 0 0 0 0 0 0 \
    131 255 255 255 255 255 255 255 255 255 255 255 255 255 255 255 @0 | 32",
    "the same, and more after them: decimal[128:38:2] | 1/0 | #255, 1 2 3 4 5 \
    => 64 | 1/0 | # @0, 1 2 3 4 @0 | 64",
    "one under a null: decimal[128:38:2] | 3/1 | #5, 1 0 0 0 9 9 9 9 -1 -1 -1 127 \
    => 8 | 3/1 | #5 @0, 1 0 0 0 0 0 0 0 -1 -1 -1 127 @8 | 56",
    "all under nulls: decimal[128:38:2] | 2/2 | #0, 1 2 3 4 5 6 7 8 \
    => 8 | 2/2 | #0 @0, 0 0 0 0 0 0 0 0 @8 | 40",
    "the last under a null: decimal[128:38:2] | 2/1 | #253, 1 2 3 4 5 6 7 8 \
    => 8 | 2/1 | #1 @0, 1 2 3 4 0 0 0 0 @8 | 40",
    "in lists, of which one is null: list decimal[128:38:2] | 2/1 2/0 | #2, 0 1 2, #, 9 9 9 9 1 2 3 4 \
    => 8 | 2/1 1/0 | #2 @0, 0 0 1 @8, # @24, 1 2 3 4 @24 | 40",
    "under a null struct: struct[1] decimal[128:38:2] | 2/1 2/0 | #2, #, 9 9 9 9 1 2 3 4 \
    => 8 | 2/1 2/1 | #2 @0, #2 @8, 0 0 0 0 1 2 3 4 @16 | 48",
    "of 32 and of 64 bits: decimal[32:9:2] decimal[64:18:2] | 2/1 2/1 | #2, 9 -1, #1, 5 -1 9 9 \
    => 8 | 2/1 2/1 | #2 @0, 0 -1 @8, #1 @16, 5 -1 0 0 @24 | 40",
    "of 256 bits: decimal[256:76:2] | 2/1 | #2, 9 9 9 9 9 9 9 9 1 2 3 4 5 6 7 -8 \
    => 8 | 2/1 | #2 @0, 0 0 0 0 0 0 0 0 1 2 3 4 5 6 7 -8 @8 | 72",
];

static RESTS: [&str; 4] = [
    "all of 128 bits: decimal[128:38:2] | 2/1 | #1, 1 2 3 4 9 9 9 9 from 0 \
    => 8 | 2/1 | #1 @0, 1 2 3 4 0 0 0 0 @8 | 40",
    "from the second on: decimal[128:38:2] | 2/0 | #, 1 2 3 4 5 6 7 8 + 1/0 | #, -1 -2 -3 -4 from 1 \
    => 8 | 2/0 | # @0, 5 6 7 8 -1 -2 -3 -4 @0 | 32",
    "from a null on: decimal[128:38:2] | 2/1 | #1, 1 2 3 4 9 9 9 9 + 1/0 | #, 5 6 7 8 from 1 \
    => 64 | 2/1 | #2 @0, 0 0 0 0 5 6 7 8 @64 | 128",
    "of 256 bits: decimal[256:76:2] | 1/0 | #, 1 2 3 4 5 6 7 8 + 1/0 | #, 8 7 6 5 4 3 2 1 from 1 \
    => 8 | 1/0 | # @0, 8 7 6 5 4 3 2 1 @0 | 32",
];

#[test]
fn decimals_are_laid_out_again(rt: HostRuntime) {
    are_stored(&rt, &COLUMNS);
}

#[test]
fn rests_of_decimals_are_laid_out(rt: HostRuntime) {
    are_rests(&rt, &RESTS);
}
