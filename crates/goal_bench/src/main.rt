//! Asks a goal of impls that are made for it, to be measured, and prints the answer.
#![tactic(auto)]

mod goals;
mod question;
mod words;

use goal_search::Answer;
use question::answer_to;
use std::env::Env;
use std::process::ExitCode;
use std::rc::RcStr;
use std::{env, io};
use words::{Load, Mode, Request};

const USAGE: &str = "usage: goal_bench MODE N [TIMES] (goal_bench --help names the modes)";

const HELP: &str = "goal_bench MODE N [TIMES]

Makes impls, asks a goal of them, to be measured, so many times (once where TIMES is not
given), and prints the answer: yes, no or undecided. N is from 1 to 1000, of impls to
65535, TIMES is at least 1, and MODE is one of

impls    each of N types has an impl, and the goal is about the last: yes
chain    a type of N levels, of which each asks two goals of the one below: yes
endless  an impl that asks a goal about a larger type, searched to depth N: undecided
all      each of these

Status: 0 the answers are these, 1 one is not, 2 wrong words, 4 output failed, 5 not
enough memory, or a type too deep";

const VERSION: &str = "goal_bench 0.1.0";

/// The words after the program's name.
fn words_of(rt: &(impl Env + AllocGlobal)) -> io::Result<Vec<RcStr>> {
    let mut words = Vec::new(rt.alloc());
    for word in env::args(rt)?.skip(1) {
        words.push(RcStr::from_str(rt.alloc(), word.as_str())?)?;
    }
    Ok(words)
}

/// Says on standard error that there is no answer.
fn explain(rt: &impl Eprint) -> u8 {
    let _ = rt.eprintln("goal_bench: there is not enough memory, or a type is too deep");
    5
}

fn name_of(answer: Answer) -> &'static str {
    match answer {
        Answer::Yes => "yes",
        Answer::No => "no",
        Answer::Undecided => "undecided",
    }
}

/// Whether the answer is that of the mode.
fn is_right(mode: Mode, answer: Answer) -> bool {
    match mode {
        Mode::Impls | Mode::Chain => answer == Answer::Yes,
        Mode::Endless => answer == Answer::Undecided,
    }
}

/// Asks what a mode asks and prints the answer; the status is 0 where it is right.
fn run(rt: &HostRuntime, mode: Mode, load: Load) -> u8 {
    match answer_to(rt.alloc(), mode, load.size, load.times) {
        Ok(answer) => match rt.println(name_of(answer)) {
            Ok(()) if is_right(mode, answer) => 0,
            Ok(()) => 1,
            Err(_) => 4,
        },
        Err(_) => explain(rt),
    }
}

/// Runs each mode until one does not end well.
fn run_all(rt: &HostRuntime, load: Load) -> u8 {
    for mode in words::MODES {
        let status = run(rt, mode, load);
        if status != 0 {
            return status;
        }
    }
    0
}

/// What the words that are no request ask for.
fn text_of(words: &[RcStr]) -> Option<&'static str> {
    match words {
        [word] if word.as_str() == "--help" => Some(HELP),
        [word] if word.as_str() == "--version" => Some(VERSION),
        _ => None,
    }
}

/// Prints on standard output, and says how that ended.
fn print(rt: &impl Print, text: &str) -> u8 {
    match rt.println(text) {
        Ok(()) => 0,
        Err(_) => 4,
    }
}

/// Runs what the words ask for.
fn run_request(rt: &HostRuntime, words: &[RcStr]) -> u8 {
    match words::asked(words) {
        Some(Request::One(mode, load)) => run(rt, mode, load),
        Some(Request::All(load)) => run_all(rt, load),
        None => {
            let _ = rt.eprintln(USAGE);
            2
        }
    }
}

fn main(rt: HostRuntime) -> ExitCode {
    let status = match words_of(&rt) {
        Ok(words) => match text_of(&words) {
            Some(text) => print(&rt, text),
            None => run_request(&rt, &words),
        },
        Err(error) if error.kind() == io::ErrorKind::OutOfMemory => explain(&rt),
        Err(_) => {
            let _ = rt.eprintln(USAGE);
            2
        }
    };
    ExitCode::from(status)
}
