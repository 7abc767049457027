//! What a store has for an id, and in which order.

use super::played::is_played;
use arrow_dict::StoreFault::{self, Memory, NoBase, TooLong};

static SCRIPTS: [&str; 14] = [
    // A new store has nothing.
    "all ->; get 0 -> none; get -1 -> none; get MIN -> none; get MAX -> none",
    // What replaces a dictionary is what `get` returns.
    "put 7 [70]; put 8 [80]; get 7 -> [70]; put 7 [71 72]; get 7 -> [71 72]; get 8 -> [80]; \
    get 9 -> none; all -> 7=[71 72] 8=[80]",
    // A dictionary may also be replaced by equal values of another type: here, by none.
    "put 7 []; type 7 -> Some(Int { bits: Eight, signed: true }); put 7 nulls 0; \
    type 7 -> Some(Null); put 7 []; type 7 -> Some(Int { bits: Eight, signed: true })",
    // Ids far apart.
    "put MAX [0]; put -1 [1]; put 0 [2]; put MIN [3]; put 4294967296 [4]; put 1 [5]; \
    put -4294967296 [6]; get MAX -> [0]; get -1 -> [1]; get 0 -> [2]; get MIN -> [3]; \
    get 4294967296 -> [4]; get 1 -> [5]; get -4294967296 -> [6]; \
    get 9223372036854775806 -> none; get -9223372036854775807 -> none; get 2 -> none; \
    get -2 -> none; get 4294967295 -> none; \
    all -> -9223372036854775808=[3] -4294967296=[6] -1=[1] 0=[2] 1=[5] 4294967296=[4] \
    9223372036854775807=[0]",
    // Ids are in order, whatever the order in which they came.
    "put -5 [0]; put 3 [8]; put 9 [14]; all -> -5=[0] 3=[8] 9=[14]",
    "put -5 [0]; put 9 [14]; put 3 [8]; all -> -5=[0] 3=[8] 9=[14]",
    "put 3 [8]; put -5 [0]; put 9 [14]; all -> -5=[0] 3=[8] 9=[14]",
    "put 3 [8]; put 9 [14]; put -5 [0]; all -> -5=[0] 3=[8] 9=[14]",
    "put 9 [14]; put -5 [0]; put 3 [8]; all -> -5=[0] 3=[8] 9=[14]",
    "put 9 [14]; put 3 [8]; put -5 [0]; all -> -5=[0] 3=[8] 9=[14]",
    // A cleared store starts again without dictionaries.
    "put 7 [70]; put 8 [80]; clear; all ->; get 7 -> none; put 8 [81]; get 8 -> [81]",
    // Deltas without a base.
    "put 3 [10]; append 2 [30] -> NoBase; append 4 [30] -> NoBase; append -3 [30] -> NoBase; \
    append MIN [30] -> NoBase; append MAX [30] -> NoBase; all -> 3=[10]; clear; \
    append 3 [30] -> NoBase",
    // As many values as a signed 32-bit number counts, and no more.
    "put 0 nulls 2147483646; append 0 nulls 2 -> TooLong; count 0 -> 2147483646; \
    append 0 nulls 2147483647 -> TooLong; count 0 -> 2147483646; append 0 nulls 1 -> appended; \
    count 0 -> 2147483647; append 0 nulls 0 -> appended; count 0 -> 2147483647; \
    append 0 nulls 1 -> TooLong; count 0 -> 2147483647",
    // A delta is appended to what the id has, and a copy from before does not change.
    "put 3 [10 20]; put 4 [99]; copy 3; append 3 [30 40 50] -> appended; append 3 [60] -> appended; \
    get 3 -> [10 20 30 40 50 60]; get 4 -> [99]; \
    type 3 -> Some(Int { bits: Eight, signed: true }); copied -> [10 20]",
];

#[test]
fn calls_of_a_store(rt: HostRuntime) {
    for script in &SCRIPTS {
        is_played(&rt, script);
    }
}

/// The faults, and their numbers and words.
static FAULTS: [(StoreFault, &str); 3] = [
    (NoBase, "1 no dictionary to append to"),
    (TooLong, "2 more than 2,147,483,647 values in a dictionary"),
    (Memory, "3 out of memory"),
];

#[test]
fn faults_are_reported(rt: HostRuntime) {
    for (fault, expected) in &FAULTS {
        let got = format!(in rt.alloc(); "{} {fault}", fault.number()).expect(&rt, "memory");
        assert_eq!(rt; got.as_str(), *expected);
    }
}
