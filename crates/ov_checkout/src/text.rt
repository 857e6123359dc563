//! The rows of a checkout, and their text.

ghost use Rattle.std.specs.Prelude.{◌≡◌, true, IfOk, OnOk, IfErr, OnErr, IsErrOf, length, map};
ghost use Rattle.std.specs.FinMap.{insert};
ghost use Rattle.ov_host.specs.Host.{Rose};
ghost use Rattle.ov_host.specs.Stage.{OthersStay};
ghost use Rattle.ov_model.specs.Csv.{text_of};
ghost use Rattle.ov_model.specs.Merge.{merged};
ghost use Rattle.ov_fetch.specs.Scans.{IsSound, AllStand, rows_at};
ghost use Rattle.ov_files.specs.Files.{Serves};

use crate::pieces::{ROOM, put_rows};
use ov_csv::{CsvText, write_csv};
use ov_fetch::{Pick, Scan};
use ov_files::FileErr;
use ov_host::Stage;
use ov_merge::merge;
use ov_value::{Schema, Txt};
use std::alloc::{AllocError, Global};
use std::marker::Model;

/// A checkout of versions. Contracts see the text of a file, which is a header of the column names and a line for each row, and how
/// many rows it has. The rows stay as they were read: the text is made where it is asked for.
#[derive(Drop)]
pub struct Checkout {
    schema: Schema,
    scan: Scan,
    places: Pick,
}

impl Model for Checkout {
    ghost use Rattle.std.specs.Prelude.{length};
    ghost use Rattle.ov_model.specs.Csv.{text_of};
    ghost use Rattle.ov_fetch.specs.Scans.{IsSound, AllStand, rows_at};
    ghost use Rattle.ov_checkout.specs.Given.{Given};

    ghost Value = { Given };

    ghost view = { λ c. record { text = text_of c.schema (rows_at c.scan.records c.places); rows = length c.places } };

    ghost invariant = { λ c. IsSound c.schema c.scan × AllStand c.scan.records c.places };
}

impl Checkout {
    /// How many rows it has.
    pub fn rows(&self) -> usize
        ensures { result ≡ self.now.rows }
    {
        self.places.as_slice().len()
    }

    /// The text, whole.
    pub fn text(&self, alloc: Global) -> Result<Vec<u8>, AllocError>
        ensures { IfOk result (λ text. text.items ≡ self.now.text) }
    {
        write_csv(alloc, &self.schema, &self.scan, self.places.as_slice())
    }

    /// Puts the text into the file of this name, in place of what it had, in pieces of some 64 KB, whose memory is taken before the
    /// file is begun. After a fault of the stage that file may be absent or hold anything, and all others stay; after want of
    /// memory it stays too.
    pub fn put<T: Stage>(&self, alloc: Global, stage: &mut T, name: &Txt) -> Result<(), FileErr>
        ensures serves { Serves (T.staged stage.old) (T.staged stage.new) }
        ensures cause { IsErrOf result FileErr.Stage → Rose (T.staged stage.old).faults (T.staged stage.new).faults }
        ensures put { (T.staged stage.old).tells ≡ true → OnOk result
            ((T.staged stage.new).files ≡ insert (T.staged stage.old).files name.now self.now.text) }
        ensures failed { (T.staged stage.old).tells ≡ true → OnErr result
            (OthersStay name.now (T.staged stage.old) (T.staged stage.new)) }
        ensures memory { (T.staged stage.old).tells ≡ true → IsErrOf result FileErr.Memory
            → (T.staged stage.new).files ≡ (T.staged stage.old).files }
    {
        let mut text = CsvText::with_room(alloc, ROOM)?;
        text.header(self.schema.columns())?;
        stage.create(name.as_str())?;
        put_rows(
            stage,
            self.schema.columns(),
            &self.scan.records,
            self.places.as_slice(),
            &mut text,
        )?;
        stage.finish()?;
        Ok(())
    }
}

/// The merge of a scan's versions, in the order in which they stand there. A row of an earlier version comes before one of a later
/// version that has its key.
pub fn checkout_of(alloc: Global, schema: &Schema, scan: Scan) -> Result<Checkout, AllocError>
    requires { IsSound schema.now scan }
    ensures text { IfOk result (λ made. made.text ≡ text_of schema.now (merged schema.now (map (rows_at scan.records) scan.picks))) }
    ensures rows { IfOk result (λ made. made.rows ≡ length (merged schema.now (map (rows_at scan.records) scan.picks))) }
{
    let places = merged_places(alloc, schema, &scan)?;
    let schema = schema.copy(alloc)?;
    Ok(Checkout {
        schema,
        scan,
        places,
    })
}

// The positions of the merge, each of which is there.
fn merged_places(alloc: Global, schema: &Schema, scan: &Scan) -> Result<Pick, AllocError>
    requires { IsSound schema.now scan.now }
    ensures rows { IfOk result (λ places. rows_at scan.now.records places ≡ merged schema.now (map (rows_at scan.now.records) scan.now.picks)) }
    ensures stand { IfOk result (AllStand scan.now.records) }
{
    let places = merge(alloc, schema, scan)?;
    Ok(places)
}
