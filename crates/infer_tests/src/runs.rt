//! A run: what it writes, and how it ends.
use infer_run::{MemorySink, MemorySource, Ran, run};
use std::alloc::{AllocError, Global};
use std::rc::RcStr;

/// How a run is made: the words, the most bytes that an end moves, and the calls that fail.
#[derive(Drop)]
pub struct Way<'a> {
    pub words: &'a str,
    pub most: usize,
    pub source_fails: &'a [u64],
    pub sink_fails: &'a [u64],
}

pub const PLAIN: Way<'static> = Way {
    words: "table fn 0",
    most: 4096,
    source_fails: &[],
    sink_fails: &[],
};

fn shared(alloc: Global, words: &str) -> Result<Vec<RcStr>, AllocError> {
    let mut out = Vec::new(alloc);
    for word in words.split_whitespace() {
        out.push(RcStr::from_str(alloc, word)?)?;
    }
    Ok(out)
}

/// What a run wrote, and how it ended.
pub fn ran(alloc: Global, way: &Way<'_>, text: &[u8]) -> Result<(Ran, String), AllocError> {
    let words = shared(alloc, way.words)?;
    let mut source = MemorySource::new(
        Vec::from_slice(alloc, text)?,
        way.most.max(1),
        Vec::from_slice(alloc, way.source_fails)?,
    );
    let fails = Vec::from_slice(alloc, way.sink_fails)?;
    let mut sink = MemorySink::new(alloc, 4096, way.most, fails)?;
    let ran = run(alloc, &words, &mut source, &mut sink);
    let written = String::from_utf8_lossy(alloc, sink.bytes())?;
    Ok((ran, written))
}

/// The status of a run, and its fault where there is one.
fn end_of(alloc: Global, ran: &Ran) -> Result<String, AllocError> {
    let status = ran.status;
    match &ran.fault {
        None => format!(in alloc; "{status}"),
        Some(fault) => format!(in alloc; "{status} {fault}"),
    }
}

/// Writes what was wanted and what was found, where they differ.
pub fn compare(out: &mut String, wanted: &str, found: &str) -> Result<(), AllocError> {
    if wanted == found {
        return Ok(());
    }
    write!(out, "wanted:\n{wanted}\nfound:\n{found}\n")
}

/// Compares how a run ended, and what it wrote, with what is wanted.
pub fn compare_end(
    out: &mut String,
    alloc: Global,
    (ran, written): &(Ran, String),
    end: &str,
    report: &str,
) -> Result<(), AllocError> {
    compare(out, end, end_of(alloc, ran)?.as_str())?;
    compare(out, report, written.as_str())
}
