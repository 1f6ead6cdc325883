//! Does many steps of one sort on a table of holes, to be measured, and checks what came of them.
#![tactic(auto)]

mod chain;
mod fault;
mod holes;
mod outcome;
mod pairs;
mod snapshots;
mod takes;
mod words;

ghost use Rattle.std.specs.Prelude.{◌<◌, ◌^◌};

use fault::Fault;
use infer_table::InferenceTable;
use outcome::Outcome;
use std::alloc::{AllocError, Global};
use std::env::Env;
use std::process::ExitCode;
use std::rc::RcStr;
use std::{env, io};
use words::{Mode, Request};

const USAGE: &str = "usage: table_bench MODE N (table_bench --help names the modes)";

const HELP: &str = "table_bench MODE N

Does N steps of one sort on a table of holes, to be measured, and prints how many were
done and how many came to what they should. N is at least 1, and MODE is one of

chain      holes are bound to one another in a chain, and the chain to u8; each is looked up
pairs      (?a, u8) is unified with (bool, ?b)
snapshots  a snapshot is taken and a hole bound; both are kept
rollbacks  a snapshot is taken, a hole is bound, and the table goes back
takes      pairs of holes wait, and each is taken as it becomes known
all        each of these

Status: 0 all is right, 1 something is not, 2 wrong words, 4 output failed, 5 not enough
memory";

const VERSION: &str = "table_bench 0.1.0";

/// The words after the program's name.
fn words_of(rt: &(impl Env + AllocGlobal)) -> io::Result<Vec<RcStr>> {
    let mut words = Vec::new(rt.alloc());
    for word in env::args(rt)?.skip(1) {
        words.push(RcStr::from_str(rt.alloc(), word.as_str())?)?;
    }
    Ok(words)
}

/// Does the steps of a mode on a table of its own.
fn measured(alloc: Global, mode: Mode, count: usize) -> Result<Outcome, Fault>
    requires { count < 2 ^ 32 }
{
    let mut table = InferenceTable::new(alloc)?;
    match mode {
        Mode::Chain => chain::run(&mut table, count),
        Mode::Pairs => pairs::run(&mut table, alloc, count),
        Mode::Snapshots => snapshots::run_kept(&mut table, alloc, count),
        Mode::Rollbacks => snapshots::run_undone(&mut table, count),
        Mode::Takes => takes::run(&mut table, count),
    }
}

/// Says on standard error why there is no outcome.
fn explain(rt: &impl Eprint, fault: Fault) -> u8 {
    let _ = eprintln!(rt; "table_bench: {fault}");
    match fault {
        Fault::Memory(AllocError) => 5,
        Fault::NotMade => 1,
    }
}

/// Prints an outcome, and answers the status: 0 where all is right.
fn report(rt: &impl Print, mode: Mode, count: usize, outcome: Outcome) -> u8 {
    let steps = outcome.steps;
    let right = outcome.right;
    match println!(rt; "{mode} {count}: {steps} steps, {right} right") {
        Ok(()) if steps == count && right == count => 0,
        Ok(()) => 1,
        Err(_) => 4,
    }
}

/// Runs a mode and prints what came of it.
fn run(rt: &HostRuntime, mode: Mode, count: u32) -> u8 {
    let count = count as usize;
    match measured(rt.alloc(), mode, count) {
        Ok(outcome) => report(rt, mode, count, outcome),
        Err(fault) => explain(rt, fault),
    }
}

/// Runs each mode until one does not end well.
fn run_all(rt: &HostRuntime, count: u32) -> u8 {
    for mode in words::MODES {
        let status = run(rt, mode, count);
        if status != 0 {
            return status;
        }
    }
    0
}

/// What the two words that are no command ask for.
fn text_of(words: &[RcStr]) -> Option<&'static str> {
    match words {
        [word] if word.as_str() == "--help" => Some(HELP),
        [word] if word.as_str() == "--version" => Some(VERSION),
        _ => None,
    }
}

/// Prints on standard output, and says how that ended.
fn print(rt: &impl Print, text: &str) -> u8 {
    match rt.println(text) {
        Ok(()) => 0,
        Err(_) => 4,
    }
}

/// Runs what the words ask for.
fn run_request(rt: &HostRuntime, words: &[RcStr]) -> u8 {
    match words::asked(words) {
        Some(Request::One(mode, count)) => run(rt, mode, count),
        Some(Request::All(count)) => run_all(rt, count),
        None => {
            let _ = rt.eprintln(USAGE);
            2
        }
    }
}

fn main(rt: HostRuntime) -> ExitCode {
    let status = match words_of(&rt) {
        Ok(words) => match text_of(&words) {
            Some(text) => print(&rt, text),
            None => run_request(&rt, &words),
        },
        Err(error) if error.kind() == io::ErrorKind::OutOfMemory => explain(
            &rt,
            Fault::Memory(AllocError),
        ),
        Err(_) => {
            let _ = rt.eprintln(USAGE);
            2
        }
    };
    ExitCode::from(status)
}
