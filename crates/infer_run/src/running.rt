//! The top call: reads facts, infers a definition's table, and writes the report on it.
ghost use Rattle.std.specs.Prelude.{◌≡◌, ◌<◌, ◌≤◌, ◌+◌, ℕ, List, length, map, IfOk, OnOk, OnErr, IsErrOf, Some};
ghost use Rattle.std.specs.Io.KnownBytes.{Appends, Consumes, IsAtEnd};
ghost use Rattle.std.specs.Rc.{rc_str_bytes};
ghost use Rattle.infer_run.specs.declared.words.Request.TheVariants as request;
ghost use Rattle.hir_types.specs.declared.ids.DefWithBodyId.{DefWithBodyId};
ghost use Rattle.infer_run.specs.Answer.{Answered, AnsweredText, silence, refusal};
ghost use Rattle.infer_run.specs.Causes.{Rose, HasCause};
ghost use Rattle.infer_run.specs.Exactly.{Exactly};
ghost use Rattle.infer_run.specs.Outcome.{AppendsFront, Outcome, between, later_fault};
ghost use Rattle.infer_run.specs.Request.{IsDue, status_by};
ghost use Rattle.infer_run.specs.declared.words.Request.{Request};

use crate::ends::{Failed, Sink, Source};
use crate::session::session_text;
use crate::table::infer;
use crate::words::{Request, asked};
use hir_facts::{BodyId, DefWithBodyId, Facts, FactsList, Law};
use infer_report::{count_complaints, write_report};
use infer_result::InferenceResult;
use infer_text::{ReadError, read_facts, read_session};
use std::alloc::{AllocError, Global};
use std::rc::RcStr;

/// The most bytes that are read.
const LIMIT: usize = 16_777_216;

/// How a run ended, and what it found out.
pub struct Ran {
    /// The exit status.
    pub status: u8,
    /// The facts, where they are lawful and memory sufficed.
    pub facts: Option<Facts>,
    /// The table of the definition's body, where one definition is asked for and has a body that is carried. Of a
    /// plain body it has the types before open holes fell back too.
    pub table: Option<InferenceResult>,
    /// Why there are no facts.
    pub fault: Option<ReadError>,
}

impl Drop for Ran {
    fn drop(self) {
        let Ran {
            status: _,
            facts: _,
            table: _,
            fault: _,
        } = self;
    }
}

/// Why a source wasn't read to its end.
#[derive(Clone, Copy, Debug)]
enum Stopped {
    Source,
    TooLong,
    OutOfMemory,
}

/// Reads a source to its end.
fn read_all<S: Source>(alloc: Global, source: &mut S) -> Result<Vec<u8>, Stopped>
    ensures whole { IfOk result (λ v. (length v.items ≤ LIMIT) × Consumes (S.left source.old) (S.left source.new) v.items × IsAtEnd (S.left source.new)) }
    ensures long { IsErrOf result Stopped.TooLong → (bytes : List ℕ) × (length bytes ≡ LIMIT + 1) × Consumes (S.left source.old) (S.left source.new) bytes }
    ensures short { IsErrOf result Stopped.Source → (bytes : List ℕ) × (length bytes ≤ LIMIT) × Consumes (S.left source.old) (S.left source.new) bytes }
    ensures cause { IsErrOf result Stopped.Source → Rose (S.faults source.old) (S.faults source.new) }
    ensures later { S.faults source.old ≤ S.faults source.new }
{
    let mut text = Vec::new(alloc);
    let mut buf = [0u8; 4096];
    while text.len() <= LIMIT {
        let room = buf.len().min(LIMIT + 1 - text.len());
        let count = match source.read(&mut buf[..room]) {
            Ok(count) => count,
            Err(Failed) => return Err(Stopped::Source),
        };
        if count == 0 {
            return Ok(text);
        }
        if text.extend_from_slice(&buf[..count]).is_err() {
            return Err(Stopped::OutOfMemory);
        }
    }
    Err(Stopped::TooLong)
}

/// Writes all of a text.
fn write_all<K: Sink>(sink: &mut K, text: &[u8]) -> Result<(), Failed>
    ensures whole { OnOk result (Appends (K.written sink.old) (K.written sink.new) text.now) }
    ensures front { OnErr result (AppendsFront (K.written sink.old) (K.written sink.new) text.now) }
    ensures cause { HasCause (K.faults sink.old) (K.faults sink.new) result }
{
    let mut at = 0;
    while at < text.len() {
        at += sink.write(&text[at..])?;
    }
    Ok(())
}

/// The run that ends with nothing but a status.
fn ended(status: u8) -> Ran
    ensures { result ≡ silence status }
{
    Ran {
        status,
        facts: None,
        table: None,
        fault: None,
    }
}

/// The run that ends with a fault.
fn refused(fault: ReadError) -> Ran
    ensures { result ≡ refusal fault }
{
    let status = match &fault {
        ReadError::OutOfMemory => 5,
        ReadError::Json => 6,
        ReadError::Shape { .. } => 7,
        ReadError::Unlawful { .. } => 8,
    };
    Ran {
        status,
        facts: None,
        table: None,
        fault: Some(fault),
    }
}

/// Writes a text that is due for facts, in which something is complained of or not.
fn finish<K: Sink>(
    sink: &mut K,
    text: &str,
    complains: bool,
    facts: Facts,
    table: Option<InferenceResult>,
) -> Ran
    ensures { (r : Request) (defs : List DefWithBodyId) → IsDue r facts defs table text.now (status_by complains)
        → Answered r facts defs (K.written sink.old) (K.written sink.new) (K.faults sink.old) (K.faults sink.new) result }
{
    let status = match write_all(sink, text.as_bytes()) {
        Ok(()) => u8::from(complains),
        Err(Failed) => 4,
    };
    Ran {
        status,
        facts: Some(facts),
        table,
        fault: None,
    }
}

/// The run that ends since a definition's body is not carried yet.
fn later(body: BodyId) -> Ran
    ensures { result ≡ refusal (later_fault body) }
{
    refused(ReadError::Unlawful {
        law: Law::Carried,
        list: FactsList::Bodies,
        index: body.0 as usize,
    })
}

/// Infers a definition's table, and writes the report on it, where it has a body that is carried.
fn answer_table<K: Sink>(alloc: Global, def: DefWithBodyId, facts: Facts, sink: &mut K) -> Ran
    ensures { (defs : List DefWithBodyId) → Answered (request.Table def) facts defs (K.written sink.old) (K.written sink.new) (K.faults sink.old) (K.faults sink.new) result }
{
    let Some(body) = facts.body_id(def) else {
        return Ran {
            status: 9,
            facts: Some(facts),
            table: None,
            fault: None,
        };
    };
    if !facts.has_carried_body(def) {
        return later(body);
    }
    let table = match infer(alloc, &facts, def) {
        Ok(table) => table,
        Err(AllocError) => return refused(ReadError::OutOfMemory),
    };
    let complains = count_complaints(&table) > 0;
    match write_report(alloc, def, &facts, &table) {
        Ok(text) => finish(sink, text.as_str(), complains, facts, Some(table)),
        Err(AllocError) => refused(ReadError::OutOfMemory),
    }
}

/// Infers the tables of these definitions, and writes the reports on them.
fn answer_session<K: Sink>(alloc: Global, facts: Facts, defs: &[DefWithBodyId], sink: &mut K) -> Ran
    ensures { Answered request.Session facts defs.now (K.written sink.old) (K.written sink.new) (K.faults sink.old) (K.faults sink.new) result }
{
    match session_text(alloc, &facts, defs) {
        Ok((text, complains)) => finish(sink, text.as_str(), complains, facts, None),
        Err(AllocError) => refused(ReadError::OutOfMemory),
    }
}

/// Reads what is asked for, and answers it.
fn answer<K: Sink>(alloc: Global, request: Request, text: &[u8], sink: &mut K) -> Ran
    ensures { AnsweredText request text.now (K.written sink.old) (K.written sink.new) (K.faults sink.old) (K.faults sink.new) result }
{
    match request {
        Request::Table(def) => match read_facts(alloc, text) {
            Ok(facts) => answer_table(alloc, def, facts, sink),
            Err(fault) => refused(fault),
        },
        Request::Session => match read_session(alloc, text) {
            Ok((facts, defs)) => answer_session(alloc, facts, defs.as_slice(), sink),
            Err(fault) => refused(fault),
        },
    }
}

/// Does what the words ask for: `table KIND N` reads facts, infers the table of a definition's
/// body, and writes the report on it; `session` reads facts with the definitions that are asked for, and writes
/// the reports on all their tables.
pub fn run<S: Source, K: Sink>(alloc: Global, words: &[RcStr], source: &mut S, sink: &mut K) -> Ran
    ensures outcome { Outcome (map rc_str_bytes words.now)
        (between S.left S.faults K.written K.faults source.old source.new sink.old sink.new) result }
    ensures exactly { Exactly (map rc_str_bytes words.now)
        (between S.left S.faults K.written K.faults source.old source.new sink.old sink.new) result }
{
    run_command(alloc, words, source, sink)
}

/// Does what the words ask for. How it ends is told here by what each status says of its cause.
fn run_command<S: Source, K: Sink>(
    alloc: Global,
    words: &[RcStr],
    source: &mut S,
    sink: &mut K,
) -> Ran
    ensures { Outcome (map rc_str_bytes words.now)
        (between S.left S.faults K.written K.faults source.old source.new sink.old sink.new) result }
{
    let Some(request) = asked(words) else {
        return ended(2);
    };
    let text = match read_all(alloc, source) {
        Ok(text) => text,
        Err(Stopped::Source) => return ended(3),
        Err(Stopped::TooLong) => return ended(10),
        Err(Stopped::OutOfMemory) => return refused(ReadError::OutOfMemory),
    };
    answer(alloc, request, &text, sink)
}
