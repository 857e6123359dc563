//! Versions of a few people, each made of its parents and a file.

use ov_model::Seq;
use ov_plain::Version;
use ov_plain_csv::rows_of;
use ov_value::{Column, Kind, Row, Schema, Txt};
use std::alloc::{AllocError, Global};
use std::test::Fail;

pub const TWO: &[u8] = b"id,name,score\n1,ann,10\n2,bob,20\n";

const RAISED: &[u8] = b"id,name,score\n1,ann,10\n2,bob,25\n3,cy,30\n";

const THREE: &[u8] = b"id,name,score\n1,ann,10\n2,bob,20\n3,cy,30\n";

// The second version raises a score and adds a row, the third one takes both back, and those behind have two or three parents.
const VERSIONS: [(&[u32], &[u8]); 6] = [
    (&[], TWO),
    (&[1], RAISED),
    (&[2], TWO),
    (&[1, 2], THREE),
    (&[2, 1], THREE),
    (&[2, 1, 4], TWO),
];

const COLUMNS: [(&str, Kind); 3] = [
    ("id", Kind::Int),
    ("name", Kind::Text),
    ("score", Kind::Int),
];

fn columns(alloc: Global) -> Result<Vec<Column>, AllocError> {
    let mut columns = Vec::new(alloc);
    for (name, kind) in COLUMNS {
        let name = Txt::new(alloc, name)?;
        columns.push(Column { name, kind })?;
    }
    Ok(columns)
}

/// The files' columns, of which `id` is the key.
pub fn schema(alloc: Global) -> Result<Schema, Fail> {
    let columns = columns(alloc)?;
    let key = Vec::from_array(alloc, [Txt::new(alloc, "id")?])?;
    Ok(Schema::new(alloc, columns, key)?)
}

/// The rows of a file.
pub fn rows(alloc: Global, schema: &Schema, file: &[u8]) -> Result<Seq<Row>, Fail> {
    match rows_of(alloc, schema, file)? {
        Ok(rows) => Ok(rows),
        Err(_) => Err("no rows")?,
    }
}

fn version(alloc: Global, schema: &Schema, parents: &[u32], file: &[u8]) -> Result<Version, Fail> {
    let rows = rows(alloc, schema, file)?;
    let parents = Seq::from_slice(alloc, parents)?;
    let message = Txt::new(alloc, "more")?;
    Ok(Version {
        parents,
        message,
        rows,
    })
}

/// The versions.
pub fn versions(alloc: Global, schema: &Schema) -> Result<Seq<Version>, Fail> {
    let mut versions = Seq::new(alloc);
    for (parents, file) in VERSIONS {
        versions.push(version(alloc, schema, parents, file)?)?;
    }
    Ok(versions)
}
