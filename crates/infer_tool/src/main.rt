//! Infers the types of a definition's body: facts on standard input, a report on standard output.
#![tactic(auto)]

mod explain;
mod kept;
mod laws;
mod shape;
mod words;

use explain::explain;
use infer_run::{Ran, StdSink, StdSource, run};
use kept::KeptSource;
use std::alloc::{AllocError, Global};
use std::env::Env;
use std::process::ExitCode;
use std::rc::RcStr;
use std::{env, io};
use words::{told_definition, told_words};

const USAGE: &str =
    "usage: infer_tool table KIND N, where KIND is fn, const, static or variant, and N a number, or infer_tool session; facts are read from standard input";

const HELP: &str = "infer_tool table KIND N
infer_tool session

Reads the facts of a crate from standard input, as JSON, infers the types of the body of
one definition, and writes a report on standard output. KIND is fn, const, static or
variant, and N the definition's number in its list. N counts from 0, as all numbers of
the facts and of the report do.

The types of the first function of facts.json:

    infer_tool table fn 0 < facts.json

With session the input is an object, {\"facts\": FACTS, \"commands\": [[\"table\", KIND, N], ..]}.
The report on each definition is written, or the line no body, and in the end how many
were inferred.

--help prints this, and --version the version. Standard error says in a sentence what
went wrong.

Status: 0 no complaint, 1 a complaint (in a session a definition without body too), 2 wrong words, 3 input failed, 4 output failed,
5 not enough memory, 6 no JSON, 7 another shape is wanted, 8 a law is broken, 9 no body,
10 more than 16777216 bytes";

const VERSION: &str = "infer_tool 0.1.0";

/// The words after the program's name.
fn words_of(rt: &(impl Env + AllocGlobal)) -> io::Result<Vec<RcStr>> {
    let mut words = Vec::new(rt.alloc());
    for word in env::args(rt)?.skip(1) {
        words.push(RcStr::from_str(rt.alloc(), word.as_str())?)?;
    }
    Ok(words)
}

/// What the two words that are no command ask for.
fn answer(words: &[RcStr]) -> Option<&'static str> {
    match words {
        [word] if word.as_str() == "--help" => Some(HELP),
        [word] if word.as_str() == "--version" => Some(VERSION),
        _ => None,
    }
}

/// Whether the words ask for a session.
fn is_session(words: &[RcStr]) -> bool {
    matches!(words, [word] if word.as_str() == "session")
}

/// Prints on standard output, and says how that ended.
fn print(rt: &impl Print, text: &str) -> u8 {
    match rt.println(text) {
        Ok(()) => 0,
        Err(_) => 4,
    }
}

/// What was wrong at a status, in words that need no memory.
fn reason(status: u8) -> &'static str {
    match status {
        2 => USAGE,
        3 => "standard input could not be read",
        4 => "standard output could not be written",
        9 => "the definition is out of range, or has no body",
        10 => "standard input has more than 16777216 bytes",
        _ => "there is not enough memory",
    }
}

/// What was wrong with a run, by what it read; `None` where `reason` says all.
fn sentence(
    alloc: Global,
    words: &[RcStr],
    ran: &Ran,
    bytes: Option<&[u8]>,
) -> Result<Option<String>, AllocError> {
    if let Some(fault) = &ran.fault {
        let told = match bytes {
            Some(bytes) => explain(alloc, bytes, fault, is_session(words))?,
            None => fault.to_string(alloc)?,
        };
        return Ok(Some(told));
    }
    match &ran.facts {
        None if ran.status == 2 => Ok(Some(told_words(alloc, words)?)),
        Some(facts) if ran.status == 9 => told_definition(alloc, words, facts),
        _ => Ok(None),
    }
}

/// Says on standard error what was wrong with a run.
fn complain(rt: &HostRuntime, words: &[RcStr], ran: &Ran, bytes: Option<&[u8]>) {
    let _ = match (sentence(rt.alloc(), words, ran, bytes), &ran.fault) {
        (Ok(Some(told)), _) => eprintln!(rt; "infer_tool: {told}"),
        (Err(AllocError), Some(fault)) => eprintln!(rt; "infer_tool: {fault}"),
        (Ok(None) | Err(AllocError), _) => {
            let told = reason(ran.status);
            eprintln!(rt; "infer_tool: {told}")
        }
    };
}

/// Runs the command between standard input and output, and says on standard error what was wrong.
fn run_between(rt: &HostRuntime, words: &[RcStr]) -> u8 {
    let mut source = KeptSource::new(rt.alloc(), StdSource::new(rt.reader()));
    let mut sink = StdSink::new(io::writer(rt));
    let ran = run(rt.alloc(), words, &mut source, &mut sink);
    if ran.status >= 2 {
        complain(rt, words, &ran, source.kept());
    }
    ran.status
}

/// Says why the words could not be read: there is no memory for them, or they are no text.
fn unread_words(rt: &impl Eprint, kind: io::ErrorKind) -> u8 {
    if kind == io::ErrorKind::OutOfMemory {
        let _ = rt.eprintln("infer_tool: there is not enough memory");
        5
    } else {
        let _ = rt.eprintln(USAGE);
        2
    }
}

fn main(rt: HostRuntime) -> ExitCode {
    let status = match words_of(&rt) {
        Ok(words) => match answer(&words) {
            Some(text) => print(&rt, text),
            None => run_between(&rt, &words),
        },
        Err(error) => unread_words(&rt, error.kind()),
    };
    ExitCode::from(status)
}
