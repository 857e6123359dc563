//! The rows of a file.

ghost use Rattle.std.specs.Prelude.{◌≡◌, ◌≢◌, ℕ, List, true, Ok, Err, Some, IfOk, IsErrOf};
ghost use Rattle.std.specs.FinMap.{get};
ghost use Rattle.ov_csv.specs.Refusing.{refusal_of};
ghost use Rattle.ov_host.specs.Host.{Rose};
ghost use Rattle.ov_model.specs.Csv.{rows_of};
ghost use Rattle.ov_model.specs.declared.refusal.Refusal.TheVariants.{NoFile};
ghost use Rattle.ov_files.specs.Files.{AreFit, Looks, file_rows, result_of};

use crate::errors::FileErr;
use crate::reading::read_front;
use ov_csv::{CsvErr, read_csv};
use ov_host::{Found, Stage};
use ov_model::Refusal;
use ov_segment::RowTable;
use ov_value::{Schema, Txt};
use std::alloc::Global;

/// What came of reading a file's rows.
#[derive(Drop)]
pub enum FileRows {
    /// The rows, in the order of the file.
    Rows(RowTable),
    /// There is no such file, or its bytes are no rows of the schema.
    Refused(Refusal),
}

/// The rows of the file of this name, or why the command that asked for them is refused. Where the file is over 67,108,864
/// bytes long, one byte more than these is kept and no more is read.
pub fn rows_of_file<T: Stage>(
    alloc: Global,
    stage: &mut T,
    name: &Txt,
    schema: &Schema,
) -> Result<FileRows, FileErr>
    ensures looks { Looks (T.staged stage.old) (T.staged stage.new) }
    ensures cause { IsErrOf result FileErr.Stage → Rose (T.staged stage.old).faults (T.staged stage.new).faults }
    ensures missing { IfOk result (λ found. (file : List ℕ) → result_of found ≡ Err (NoFile file)
        → Rose (T.staged stage.old).misses (T.staged stage.new).misses) }
    ensures rows { (T.staged stage.old).tells ≡ true → IfOk result (λ found.
        result_of found ≡ file_rows schema.now name.now (get (T.staged stage.old).files name.now)) }
    ensures fit { IfOk result (AreFit schema.now) }
{
    match stage.find(name.as_str())? {
        Found::Missing => Ok(FileRows::Refused(Refusal::NoFile {
            name: name.copy(alloc)?,
        })),
        Found::Yes => {
            let bytes = read_front(alloc, stage)?;
            rows_in(alloc, schema, bytes.as_slice())
        }
    }
}

// The rows that these bytes spell, or why they spell none.
fn rows_in(alloc: Global, schema: &Schema, bytes: &[u8]) -> Result<FileRows, FileErr>
    ensures cause { IsErrOf result FileErr.Stage → ⊥ }
    ensures there { IfOk result (λ found. (file : List ℕ) → result_of found ≢ Err (NoFile file)) }
    ensures rows { IfOk result (λ found. result_of found ≡ rows_of schema.now bytes.now) }
    ensures fit { IfOk result (AreFit schema.now) }
{
    match read_csv(alloc, schema, bytes) {
        Ok(rows) => Ok(FileRows::Rows(rows)),
        Err(why) => Ok(FileRows::Refused(refused(schema, why)?)),
    }
}

// The refusal that an error of reading stands for.
fn refused(schema: &Schema, why: CsvErr) -> Result<Refusal, FileErr>
    ensures cause { IsErrOf result FileErr.Stage → ⊥ }
    ensures refusal { IfOk result (λ refusal. refusal_of schema.now why ≡ Some refusal) }
{
    Ok(match why {
        CsvErr::TooLong => Refusal::LongFile,
        CsvErr::BadHeader => Refusal::BadHeader,
        CsvErr::Width { row, found } => Refusal::Width {
            row,
            found,
            columns: schema.columns().len() as u64,
        },
        CsvErr::NotText { row } => Refusal::NotText { row },
        CsvErr::BadField { row, column, kind } => Refusal::BadField { row, column, kind },
        CsvErr::NullKey { row, column } => Refusal::NullKey { row, column },
        CsvErr::LongRow { row } => Refusal::LongRow { row },
        CsvErr::Memory => return Err(FileErr::Memory),
    })
}
