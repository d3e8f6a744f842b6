//! The refusals' numbers.

use rules::Refusal;

#[test]
fn stores_and_tables(rt: HostRuntime) {
    assert_eq!(rt; Refusal::ShortList.number(), 1);
    assert_eq!(rt; Refusal::Backwards.number(), 2);
    assert_eq!(rt; Refusal::AlreadyMade.number(), 3);
    assert_eq!(rt; Refusal::DefaultRange.number(), 4);
    assert_eq!(rt; Refusal::NotHeld.number(), 5);
    assert_eq!(rt; Refusal::BatchFull.number(), 6);
    assert_eq!(rt; Refusal::Full.number(), 7);
    assert_eq!(rt; Refusal::Conflict.number(), 8);
    assert_eq!(rt; Refusal::Uncovered.number(), 9);
    assert_eq!(rt; Refusal::Ambiguous.number(), 10);
}

#[test]
fn prefixes_feeds_and_rows(rt: HostRuntime) {
    assert_eq!(rt; Refusal::BadPrefix.number(), 11);
    assert_eq!(rt; Refusal::UnknownRecord.number(), 12);
    assert_eq!(rt; Refusal::FeedEnds.number(), 13);
    assert_eq!(rt; Refusal::BadCount.number(), 14);
    assert_eq!(rt; Refusal::NotAChange.number(), 15);
    assert_eq!(rt; Refusal::ShortBuffer.number(), 16);
}
