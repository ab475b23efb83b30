// What the ladders answer, by example. What is expected is worked out by hand from the table.
use ladder::{BandedLadder, EvenLadder, Ladder};
use std::process::Abort;

// A number, and the legal prices nearest to it.
type Case = (u32, Option<u32>, Option<u32>);

fn rounds<L: Ladder>(rt: &impl Abort, ladder: &L, cases: &[Case]) {
    for (n, lower, upper) in cases {
        assert_eq!(rt; ladder.round_down(*n), *lower);
        assert_eq!(rt; ladder.round_up(*n), *upper);
    }
}

#[test]
fn nearest_prices(rt: HostRuntime) {
    let banded = [
        (9, None, Some(10)),
        (252, Some(250), Some(255)),
        (499, Some(495), Some(500)),
        (8_490, Some(8_490), Some(8_490)),
        (9_999, Some(9_990), Some(10_000)),
        (10_001, Some(10_000), Some(10_020)),
        (9_995_000, Some(9_995_000), Some(9_995_000)),
        (9_995_001, Some(9_995_000), None),
    ];
    rounds(&rt, &BandedLadder, &banded);
    rounds(
        &rt,
        &EvenLadder::new(0, 5),
        &[(0, None, Some(1)), (6, Some(5), None)],
    );
    rounds(
        &rt,
        &EvenLadder::new(20_000, 0),
        &[(9_999, None, Some(10_000)), (10_001, Some(10_000), None)],
    );
    rounds(
        &rt,
        &EvenLadder::new(3, 5_000),
        &[(4, Some(3), Some(6)), (3_001, Some(3_000), None)],
    );
    assert!(rt; BandedLadder.is_legal(11_520));
    assert!(rt; !BandedLadder.is_legal(11_530));
}
