//! What a reader does.

ghost use Rattle.std.specs.Prelude.{◌≡◌, ◌+◌};
ghost use Rattle.feed.specs.Decode.{decode as decoded};
ghost use Rattle.feed.specs.Reads.{placed, left, taken, record_placed, as_change, change_placed};
ghost use Rattle.feed.specs.Readers.{unread};
ghost use Rattle.feed.specs.Runs.{run};

use crate::decode::decode;
use crate::reader::Reader;
use crate::record::Record;
use batch::Change;
use byte_form::FeedKind;
use rules::Refusal;
use std::marker::PhantomData;

// `same` stands on each call that reads on: no type says of a value that a call leaves a part of it as it was.
impl<'a, A: FeedKind> Reader<'a, A> {
    /// A reader at the first byte of the feed.
    pub fn new(feed: &'a [u8]) -> Reader<'a, A>
        ensures feed { result.feed ≡ feed.entry }
        ensures place { result.place ≡ 0 }
    {
        Reader {
            feed,
            place: 0,
            kind: PhantomData,
        }
    }

    /// The place of the next record: how many bytes are read.
    pub fn place(&self) -> usize
        ensures { result ≡ self.now.place }
    {
        self.place
    }

    /// The bytes that are not read yet, as a part of the caller's feed.
    pub fn unread(&self) -> &'a [u8]
        ensures value { result.now ≡ unread self.now }
        ensures block { result.ref_ptr.0 ≡ self.now.feed.ref_ptr.0 }
        ensures place { result.ref_ptr.1 ≡ self.now.feed.ref_ptr.1 + self.now.place }
    {
        &self.feed[self.place..]
    }

    /// The next record with its place, or none at the end. Refuses `UnknownRecord`, `FeedEnds`, `BadCount`, and is then
    /// as it was.
    pub fn next(&mut self) -> Result<Option<(usize, Record<A>)>, Refusal>
        ensures answer { record_placed A.AddressKind.num result ≡ placed self.old.place (decoded A.FeedKind.width (unread self.old)) }
        ensures after { unread self.new ≡ left (unread self.old) (decoded A.FeedKind.width (unread self.old)) }
        ensures place { self.new.place ≡ self.old.place + taken (unread self.old) (decoded A.FeedKind.width (unread self.old)) }
        ensures same { self.new.feed ≡ self.old.feed }
    {
        let place = self.place;
        let Some((record, rest)) = decode(self.unread())? else {
            return Ok(None);
        };
        self.place = self.feed.len() - rest.len();
        Ok(Some((place, record)))
    }

    /// The change that is the next record, with its place, inside a batch. Refuses `UnknownRecord`, `FeedEnds`, `BadCount`,
    /// `NotAChange`, and is then as it was. Here the feed's end is a `FeedEnds`.
    pub fn next_change(&mut self) -> Result<(usize, Change<A>), Refusal>
        ensures answer { change_placed A.AddressKind.num result ≡ placed self.old.place (as_change (decoded A.FeedKind.width (unread self.old))) }
        ensures after { unread self.new ≡ left (unread self.old) (as_change (decoded A.FeedKind.width (unread self.old))) }
        ensures place { self.new.place ≡ self.old.place + taken (unread self.old) (as_change (decoded A.FeedKind.width (unread self.old))) }
        ensures same { self.new.feed ≡ self.old.feed }
    {
        let place = self.place;
        let (record, rest) = decode(self.unread())?.ok_or(Refusal::FeedEnds)?;
        let Record::Change(change) = record else {
            return Err(Refusal::NotAChange);
        };
        self.place = self.feed.len() - rest.len();
        Ok((place, change))
    }

    /// Reads to the end. Refuses as `next` does, and then stands at the faulty record.
    pub fn skip_rest(&mut self) -> Result<(), Refusal>
        ensures answer { result ≡ (run A.FeedKind.width (unread self.old)).end }
        ensures after { unread self.new ≡ (run A.FeedKind.width (unread self.old)).left }
        ensures same { self.new.feed ≡ self.old.feed }
    {
        while let Some(_) = self.next()? {}
        Ok(())
    }
}
