//! Ends in memory with their files, and runs over them.
use ov_memhost::{MemHost, MemSource, MemStage};
use ov_top::{Status, run};
use ov_value::Txt;
use std::alloc::{AllocError, Global};

/// A number that no call has.
pub const NEVER: u64 = u64::MAX;

/// The bytes of `a.csv`.
pub const PEOPLE: &[u8] = b"id,name,score\n1,ann,10\n2,bob,20\n";

const FILES: [(&str, &[u8]); 6] = [
    ("a.csv", PEOPLE),
    ("b.csv", b"id,name,score\n1,ann,10\n2,bob,25\n3,cy,30\n"),
    ("h.csv", b"id,name,score\n"),
    // The rows of version 1 and a new one.
    ("m.csv", b"id,name,score\n1,ann,10\n2,bob,20\n3,cy,30\n"),
    // A column more: NULL, a text, and the empty text.
    (
        "w.csv",
        b"id,name,score,team\n1,ann,10,\\N\n2,bob,25,red\n3,cy,30,\n",
    ),
    // Two columns more, of version 1's rows and a new one.
    (
        "x.csv",
        b"id,name,score,team,ok\n1,ann,10,\\N,t\n2,bob,20,\\N,\n3,cy,30,,f\n",
    ),
];

/// The files of all scripts.
pub fn files(alloc: Global) -> Result<Vec<(String, Vec<u8>)>, AllocError> {
    let mut all = Vec::new(alloc);
    for (name, bytes) in FILES {
        let name = String::from_str(alloc, name)?;
        all.push((name, Vec::from_slice(alloc, bytes)?))?;
    }
    Ok(all)
}

/// Empty areas, of which the call of this number fails.
pub fn host_of(alloc: Global, fails: u64) -> Result<MemHost, AllocError> {
    let fails = Vec::from_slice(alloc, &[fails])?;
    Ok(MemHost::new(alloc, Vec::new(alloc), Vec::new(alloc), fails))
}

/// A stage of all files, of which the call of this number fails.
pub fn stage_of(alloc: Global, fails: u64) -> Result<MemStage, AllocError> {
    let fails = Vec::from_slice(alloc, &[fails])?;
    Ok(MemStage::new(alloc, files(alloc)?, fails))
}

fn source_of(alloc: Global, script: &[u8], fails: u64) -> Result<MemSource, AllocError> {
    let fails = Vec::from_slice(alloc, &[fails])?;
    Ok(MemSource::new(alloc, Vec::from_slice(alloc, script)?, fails))
}

// The words of a run, with a step behind each reply or none.
fn words(alloc: Global, steps: bool) -> Result<Vec<Txt>, AllocError> {
    let mut words = Vec::new(alloc);
    words.push(Txt::new(alloc, "s")?)?;
    if steps {
        words.push(Txt::new(alloc, "--steps=1")?)?;
    }
    Ok(words)
}

/// Runs a script over a host, with the calls of these numbers of its source and of its stage failing.
pub fn run_on(
    alloc: Global,
    host: &mut MemHost,
    steps: bool,
    script: &[u8],
    source: u64,
    stage: u64,
) -> Result<Status, AllocError> {
    let words = words(alloc, steps)?;
    let mut source = source_of(alloc, script, source)?;
    let mut stage = stage_of(alloc, stage)?;
    Ok(run(alloc, words.as_slice(), host, &mut source, &mut stage))
}
