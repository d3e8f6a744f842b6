//! Decoding the first record of a feed's bytes.

ghost use Rattle.std.specs.Prelude.{◌≡◌, ◌<◌, length, drop, slice_index};
ghost use Rattle.feed.specs.Decode.{taking, pair, decode as decoded, decode_add, decode_remove, decode_lookup, decode_head, decode_kind, address_part, record_part, record_read};

use crate::record::Record;
use batch::Change;
use byte_form::FeedKind;
use rules::Refusal;

/// The most changes that a batch head may count.
const LARGEST_BATCH: u8 = 64;

/// The first address of the bytes, and the bytes behind it.
fn address<A: FeedKind>(bytes: &[u8]) -> Result<(A, &[u8]), Refusal>
    ensures { address_part A.AddressKind.num result ≡ taking A.FeedKind.width bytes.now pair }
{
    let (front, rest) = bytes.split_at_checked(A::width()).ok_or(Refusal::FeedEnds)?;
    let address = A::from_bytes(front).ok_or(Refusal::FeedEnds)?;
    Ok((address, rest))
}

/// The lookup whose body the bytes begin with, and the bytes behind it.
fn lookup<A: FeedKind>(body: &[u8]) -> Result<(Record<A>, &[u8]), Refusal>
    ensures { record_part A.AddressKind.num result ≡ decode_lookup A.FeedKind.width body.now }
{
    let (a, rest) = address(body)?;
    Ok((Record::Lookup(a), rest))
}

/// The remove whose body the bytes begin with, and the bytes behind it.
fn remove<A: FeedKind>(body: &[u8]) -> Result<(Record<A>, &[u8]), Refusal>
    ensures { record_part A.AddressKind.num result ≡ decode_remove A.FeedKind.width body.now }
{
    let (start, rest) = address(body)?;
    let (finish, rest) = address(rest)?;
    Ok((Record::Change(Change::Remove { start, finish }), rest))
}

/// The add whose body the bytes begin with, and the bytes behind it.
fn add<A: FeedKind>(body: &[u8]) -> Result<(Record<A>, &[u8]), Refusal>
    ensures { record_part A.AddressKind.num result ≡ decode_add A.FeedKind.width body.now }
{
    let (start, rest) = address(body)?;
    let (finish, rest) = address(rest)?;
    let [high, low, rest @ ..] = rest else {
        return Err(Refusal::FeedEnds);
    };
    let hop = u16::from_be_bytes([*high, *low]);
    Ok((Record::Change(Change::Add { start, finish, hop }), rest))
}

/// The record that the bytes begin with, and the bytes behind it.
fn record<A: FeedKind>(unread: &[u8]) -> Result<(Record<A>, &[u8]), Refusal>
    requires { 0 < length unread.now }
    ensures { record_part A.AddressKind.num result ≡ decode_kind A.FeedKind.width (slice_index unread.now 0) (drop 1 unread.now) }
{
    match unread {
        [0x01, body @ ..] => add(body),
        [0x02, body @ ..] => remove(body),
        [0x03, body @ ..] => lookup(body),
        [0x04, n @ 1..=LARGEST_BATCH, rest @ ..] => Ok((Record::Batch(*n), rest)),
        [0x04, _, ..] => Err(Refusal::BadCount),
        [0x04] => Err(Refusal::FeedEnds),
        _ => Err(Refusal::UnknownRecord),
    }
}

/// The first record of the bytes, and the bytes behind it; none if there are no bytes.
pub fn decode<A: FeedKind>(unread: &[u8]) -> Result<Option<(Record<A>, &[u8])>, Refusal>
    ensures { record_read A.AddressKind.num result ≡ decoded A.FeedKind.width unread.now }
{
    if unread.is_empty() {
        return Ok(None);
    }
    Ok(Some(record(unread)?))
}
