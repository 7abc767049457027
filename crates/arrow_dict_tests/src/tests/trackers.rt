//! What a tracker plans, with deltas or by resending, and what was sent once it has committed.

use super::played::is_played;

static SCRIPTS: [&str; 9] = [
    // A dictionary that is extended, and then changes.
    "delta 1 [1 2 3] -> New; stage 1 [1 2 3]; commit; delta 1 [1 2 3] -> None; \
    delta 1 [1 2 3 4 5] -> Delta(3); stage 1 [1 2 3 4 5]; commit; delta 1 [1 3 4 5] -> Replace; \
    delta 1 [1 2 3 4 5] -> None; discard",
    "resend 1 [1 2 3] -> New; stage 1 [1 2 3]; commit; resend 1 [1 2 3] -> None; \
    resend 1 [1 2 3 4 5] -> Replace; stage 1 [1 2 3 4 5]; commit; resend 1 [1 3 4 5] -> Replace; \
    resend 1 [1 2 3 4 5] -> None; discard",
    // An empty list is sent too, and what comes after it is a delta.
    "delta 1 [] -> New; stage 1 []; commit; delta 1 [] -> None; delta 1 [5] -> Delta(0); \
    sent 1 -> []",
    // A list that is cut off, and one that differs in only one value.
    "stage 1 [1 2 3]; commit; delta 1 [1 2] -> Replace; delta 1 [1 2 4] -> Replace; \
    delta 1 [0 2 3 4] -> Replace; delta 1 [] -> Replace; delta 2 [1 2 3] -> New",
    // Segments make no difference.
    "stage 1 [1 2 3]; commit; delta 1 [1][2 3] -> None; delta 1 [1 2][3 4] -> Delta(3); \
    delta 1 [1 2 3][4] -> Delta(3); delta 1 [1 2][4 3] -> Replace",
    // Nor do they if there are two of the sent list too, which end elsewhere.
    "stage 1 [1 2 3][4 5]; commit; delta 1 [1][2 3 4 5 6] -> Delta(5); \
    resend 1 [1][2 3 4 5 6] -> Replace; delta 1 [1][2 3 4 5] -> None; \
    resend 1 [1][2 3 4 5] -> None; delta 1 [1][2 3 4 6] -> Replace; sent 1 -> [1 2 3 4 5]",
    // Staged lists do not count until they are committed.
    "stage 1 [1]; delta 1 [1] -> New; sent 1 -> none; commit; delta 1 [1] -> None; sent 1 -> [1]",
    // Nothing is left of what was discarded.
    "stage 3 [1]; commit; stage 3 [1 2]; stage 4 [9]; discard; sents -> 3=[1]; commit; \
    sents -> 3=[1]",
    // Ids in any order, and a second list of one id.
    "stage 7 [70]; stage -2 [20]; stage 7 [71 72]; commit; sents -> -2=[20] 7=[71 72]; \
    stage 5 [50]; stage -2 []; commit; sents -> -2=[] 5=[50] 7=[71 72]",
];

#[test]
fn what_is_planned_and_sent(rt: HostRuntime) {
    for script in &SCRIPTS {
        is_played(&rt, script);
    }
}
