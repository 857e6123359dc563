//! The records of a segment, one after another, as its bytes come from the host.

ghost use Rattle.std.specs.Prelude.{◌≡◌, ◌+◌, ◌≤◌, ◌<◌, ◌^◌, [], true, false, length, IfOk, IfErr, IsErrOf, MatchResult, OnOk};
ghost use Rattle.ov_host.specs.Host.{Rose};
ghost use Rattle.ov_member.specs.Rids.{AreRids};
ghost use Rattle.ov_segment.specs.Reading.{fresh};
ghost use Rattle.ov_fetch.specs.Extents.{Looked, page_bytes, RefusesExtent, RefusesSegment};
ghost use Rattle.ov_fetch.specs.Cursors.{left_of, IsAtFront, Reaches, IsSameWith};
ghost use Rattle.ov_fetch.specs.Gathering.{HasKept};

use crate::errors::FetchErr;
use ov_host::{Extent, Host};
use ov_member::{Members, MembersDraft};
use ov_pages::get;
use ov_segment::{SegmentReader, Stop, Table};
use ov_value::Schema;
use std::alloc::{AllocError, Global};

/// The most bytes that are read at once: as many as a reader has room for beside a record that isn't whole yet.
pub(crate) const PIECE_BYTES: usize = 61_440;

/// A place in a segment.
#[derive(Drop)]
pub(crate) struct Cursor {
    extent: Extent,
    at: u32,
    reader: SegmentReader,
}

impl Cursor {
    /// The front of a segment. It takes all its memory here.
    pub(crate) fn new(alloc: Global, extent: Extent) -> Result<Cursor, AllocError>
        ensures { IfOk result (λ made. made ≡ record { extent = extent; at = 0; reader = fresh }) }
    {
        let reader = SegmentReader::new(alloc)?;
        Ok(Cursor {
            extent,
            at: 0,
            reader,
        })
    }

    /// Goes to the front of another segment, with the memory that it has.
    pub(crate) fn begin(&mut self, extent: Extent)
        ensures place { self.new.extent ≡ extent }
        ensures front { IsAtFront self.new }
    {
        self.reader.restart();
        self.extent = extent;
        self.at = 0;
    }

    /// Puts the wanted records of the segment behind those kept, and gives the rids of all of its records. The wanted
    /// rids and the segment's ascend both, and are walked side by side. Of a record that isn't wanted the bytes are
    /// tested, and nothing is kept. `Damaged` exactly where the segment is short, or its bytes are no segment.
    pub(crate) fn keep_wanted<H: Host>(
        &mut self,
        alloc: Global,
        host: &mut H,
        schema: &Schema,
        wanted: &Members,
        piece: &mut [u8],
        kept: &mut Table,
    ) -> Result<Members, FetchErr>
        requires front { IsAtFront self.old }
        requires room { length piece.old ≡ 61440 }
        requires columns { kept.old.columns ≡ schema.now.columns }
        ensures looked { Looked (H.state host.old) (H.state host.new) }
        ensures cause { IsErrOf result FetchErr.Host → Rose (H.state host.old).faults (H.state host.new).faults }
        ensures fetched { (H.state host.new).fetched ≤ (H.state host.old).fetched + self.old.extent.bytes }
        ensures columns { OnOk result (kept.new.columns ≡ kept.old.columns) }
        ensures set { IfOk result AreRids }
        ensures kept { IfOk result (HasKept schema.now (H.state host.old) self.old.extent wanted.now kept.old.records kept.new.records) }
        ensures err { (H.state host.old).tells ≡ true
            → IfErr result (λ e. RefusesSegment e schema.now (page_bytes (H.state host.old)) self.old.extent) }
    {
        let mut ahead = wanted.ahead();
        let mut rids = MembersDraft::new(alloc);
        loop {
            match self.reader.pass_held(schema, &mut ahead, &mut rids, kept)? {
                Stop::Bad => return Err(self.damaged()),
                Stop::More => {
                    if self.at < self.extent.bytes {
                        self.fill(host, piece)?;
                    } else if self.reader.held() == 0 {
                        return Ok(rids.done());
                    } else {
                        return Err(self.damaged());
                    }
                }
            }
        }
    }

    fn damaged(&self) -> FetchErr
        ensures { result ≡ FetchErr.Damaged self.now.extent.page }
    {
        FetchErr::Damaged {
            page: self.extent.page,
        }
    }

    // Reads the next bytes of the extent, of which there are more.
    fn fill<H: Host>(&mut self, host: &mut H, piece: &mut [u8]) -> Result<(), FetchErr>
        requires still { self.old.reader.over ≡ false }
        requires sized { self.old.extent.bytes < 2 ^ 32 }
        requires more { self.old.at < self.old.extent.bytes }
        requires space { length self.old.reader.held + 61440 ≤ 131072 }
        requires room { length piece.old ≡ 61440 }
        ensures looked { Looked (H.state host.old) (H.state host.new) }
        ensures cause { IsErrOf result FetchErr.Host → Rose (H.state host.old).faults (H.state host.new).faults }
        ensures fetched { (H.state host.new).fetched + self.old.at ≤ (H.state host.old).fetched + self.new.at }
        ensures piece { length piece.new ≡ 61440 }
        ensures same { IsSameWith self.old self.new }
        ensures more { OnOk result (self.old.at < self.new.at) }
        ensures answer { (H.state host.old).tells ≡ true → MatchResult result
            (λ _. (left_of (page_bytes (H.state host.old)) self.new ≡ left_of (page_bytes (H.state host.old)) self.old)
            × Reaches (page_bytes (H.state host.old)) self.new)
            (λ e. RefusesExtent e (page_bytes (H.state host.old)) self.old.extent) }
    {
        let extent = self.extent;
        let got = get(host, extent, self.at, piece)?;
        if got == 0 {
            return Err(self.damaged());
        }
        let _taken = self.reader.feed(&piece[..got]);
        self.at += got as u32;
        Ok(())
    }
}
