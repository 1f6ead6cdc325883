//! The words of the command.
ghost use Rattle.std.specs.Prelude.{◌≤◌, ◌<◌, IfSome};

use std::rc::RcStr;

/// What is asked.
#[derive(Clone, Copy, Debug, PartialEq, Eq)]
pub enum Mode {
    /// A goal about the last of many ADTs, each of which has an impl.
    Impls,
    /// A goal about a nested type, of which each level asks two of the one below.
    Chain,
    /// A goal that asks one about a larger type, and so on.
    Endless,
}

/// All modes.
pub const MODES: [Mode; 3] = [Mode::Impls, Mode::Chain, Mode::Endless];

/// How large a question is that is searched as deep as it is large: the stack suffices.
const DEEPEST: u16 = 1000;

/// How large the question is, and how often it is asked.
#[derive(Clone, Copy, Debug)]
pub struct Load {
    pub size: u16,
    pub times: u32,
}

/// What is to be run.
#[derive(Clone, Copy, Debug)]
pub enum Request {
    One(Mode, Load),
    All(Load),
}

/// The mode of this name.
fn mode_of(word: &str) -> Option<Mode> {
    if word == "impls" {
        Some(Mode::Impls)
    } else if word == "chain" {
        Some(Mode::Chain)
    } else if word == "endless" {
        Some(Mode::Endless)
    } else {
        None
    }
}

/// The largest size of a mode.
fn most_of(mode: Mode) -> u16 {
    match mode {
        Mode::Impls => u16::MAX,
        Mode::Chain | Mode::Endless => DEEPEST,
    }
}

/// A size from 1 to the most, and how often, which is not 0.
fn load_of(size: &str, times: &str, most: u16) -> Option<Load>
    ensures size { IfSome result (λ load. (0 < load.size) × (load.size ≤ most)) }
    ensures times { IfSome result (λ load. 0 < load.times) }
{
    match (size.parse::<u16>(), times.parse::<u32>()) {
        (Ok(size), Ok(times)) if 0 < size && size <= most && 0 < times => {
            Some(Load { size, times })
        }
        _ => None,
    }
}

fn request_of(mode: &str, size: &str, times: &str) -> Option<Request> {
    if mode == "all" {
        return Some(Request::All(load_of(size, times, DEEPEST)?));
    }
    let mode = mode_of(mode)?;
    Some(Request::One(mode, load_of(size, times, most_of(mode))?))
}

/// What the words ask for.
pub fn asked(words: &[RcStr]) -> Option<Request> {
    match words {
        [mode, size] => request_of(mode.as_str(), size.as_str(), "1"),
        [mode, size, times] => request_of(mode.as_str(), size.as_str(), times.as_str()),
        _ => None,
    }
}
