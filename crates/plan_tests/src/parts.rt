//! What is told of the parts of a problem before it is made.
use crate::clusters::split_lines;
use wave_problem::{MAX_BYTES, are_held_well, are_small_splits};

#[test]
fn splits_are_told_by_limits_and_holders(rt: HostRuntime) {
    let rows: [(u64, &[u16], bool, bool); 4] = [
        (MAX_BYTES, &[2, 0], true, true),
        (MAX_BYTES + 1, &[0], false, true),
        (1, &[3], true, false),
        (1, &[1, 0, 1], true, false),
    ];
    for (bytes, holders, is_small, is_held_well) in rows {
        let splits = split_lines(&rt, rt.alloc(), &[(bytes, true, holders)]);
        let told = (are_small_splits(&splits), are_held_well(3, &splits));
        assert_eq!(rt; (bytes, told), (bytes, (is_small, is_held_well)));
    }
}
