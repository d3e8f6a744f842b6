//! A run of the reader over a whole feed.

ghost use Rattle.std.specs.Prelude.{◌≡◌, length};
ghost use Rattle.feed.specs.Runs.{run, fault, Apart};

use crate::reader::Reader;
use byte_form::FeedKind;
use rules::Refusal;

/// The place of the feed's first faulty record and its refusal, or none if the feed can be read to its end. The records of a
/// batch are read like others.
#[tactic(auto, using(crate::proofs::Runs::apart_bytes))]
pub fn first_fault<A: FeedKind>(feed: &[u8]) -> Option<(usize, Refusal)>
    ensures answer { result ≡ fault (length feed.now) (run A.FeedKind.width feed.now) }
    ensures apart { Apart A.FeedKind.width feed.now (run A.FeedKind.width feed.now) }
{
    let mut reader = Reader::<A>::new(feed);
    match reader.skip_rest() {
        Ok(()) => None,
        Err(refusal) => Some((reader.place(), refusal)),
    }
}
