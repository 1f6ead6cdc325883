//! Tests of whole runs, with answers that were worked out by hand: of the rows in data/, and of texts that are made here.
//! Without a proof: `rt try -- data/*`.
#![tactic(auto)]

mod before_fallback;
mod goals;
mod plain_bodies;
mod proofs;
mod rows;
mod runs;
mod selection;
mod texts;

use std::env::Env;
use std::process::ExitCode;
use std::rt::Files;
use std::{env, fs, io};

/// How many checks were made, and how many of them went wrong.
#[derive(Drop)]
struct Checks {
    made: usize,
    wrong: usize,
}

impl Checks {
    /// Counts a check, and tells what is wrong, if anything is.
    fn note(&mut self, rt: &impl Eprint, name: &str, wrong: &str) -> io::Result<()> {
        self.made = self.made.saturating_add(1);
        if wrong.is_empty() {
            return Ok(());
        }
        self.wrong = self.wrong.saturating_add(1);
        eprintln!(rt; "{name}: {wrong}")
    }
}

/// The files of rows: those that are named, or else those of this folder.
fn paths_of(rt: &HostRuntime) -> io::Result<Vec<String>> {
    let mut paths = Vec::new(rt.alloc());
    for word in env::args(rt)?.skip(1) {
        if word.as_str().ends_with(".rows") {
            paths.push(String::from_str(rt.alloc(), word.as_str())?)?;
        }
    }
    if paths.is_empty() {
        for entry in fs::read_dir(rt, ".")? {
            let entry = entry?;
            if entry.file_name().ends_with(".rows") {
                paths.push(String::from_str(rt.alloc(), entry.file_name())?)?;
            }
        }
    }
    Ok(paths)
}

/// Makes all checks, of files of rows beside which the facts that they name are.
fn check_all(rt: &HostRuntime, paths: &[String], checks: &mut Checks) -> io::Result<()> {
    let Some(first) = paths.first() else {
        return checks.note(rt, "data", "there are no files of rows");
    };
    for path in paths {
        rows::check(rt, path.as_str(), checks)?;
    }
    plain_bodies::check(rt, first.as_str(), checks)?;
    texts::check(rt, first.as_str(), checks)
}

fn main(rt: HostRuntime) -> io::Result<ExitCode> {
    let mut checks = Checks { made: 0, wrong: 0 };
    check_all(&rt, &paths_of(&rt)?, &mut checks)?;
    let Checks { made, wrong } = checks;
    eprintln!(rt; "{made} checks")?;
    println!(rt; "{wrong} wrong")?;
    Ok(ExitCode::from(u8::from(wrong > 0)))
}
