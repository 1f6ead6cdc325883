//! The words of the command.
ghost use Rattle.std.specs.Prelude.{◌<◌, IfSome};

use std::fmt;
use std::rc::RcStr;

/// What is measured.
#[derive(Clone, Copy, Debug, PartialEq, Eq)]
pub enum Mode {
    /// Holes are bound to one another in a chain, the chain to a type, and each is looked up.
    Chain,
    /// Pairs of small types are unified.
    Pairs,
    /// A snapshot is taken and a hole bound, and both are kept.
    Snapshots,
    /// A snapshot is taken, a hole is bound, and the table goes back.
    Rollbacks,
    /// Pairs wait, and each is taken as it becomes known.
    Takes,
}

/// All modes.
pub const MODES: [Mode; 5] = [
    Mode::Chain,
    Mode::Pairs,
    Mode::Snapshots,
    Mode::Rollbacks,
    Mode::Takes,
];

/// What is to be run, and with how many steps.
#[derive(Clone, Copy, Debug)]
pub enum Request {
    One(Mode, u32),
    All(u32),
}

impl fmt::Display for Mode {
    fn fmt<W: fmt::Write>(&self, f: &mut fmt::Formatter<W>) -> fmt::Result {
        match self {
            Mode::Chain => write!(f, "chain"),
            Mode::Pairs => write!(f, "pairs"),
            Mode::Snapshots => write!(f, "snapshots"),
            Mode::Rollbacks => write!(f, "rollbacks"),
            Mode::Takes => write!(f, "takes"),
        }
    }
}

/// The mode of this name.
fn mode_of(word: &str) -> Option<Mode> {
    if word == "chain" {
        Some(Mode::Chain)
    } else if word == "pairs" {
        Some(Mode::Pairs)
    } else if word == "snapshots" {
        Some(Mode::Snapshots)
    } else if word == "rollbacks" {
        Some(Mode::Rollbacks)
    } else if word == "takes" {
        Some(Mode::Takes)
    } else {
        None
    }
}

/// A number of steps, which is not 0.
fn count_of(word: &str) -> Option<u32>
    ensures { IfSome result (λ count. 0 < count) }
{
    match word.parse::<u32>() {
        Ok(count) if count != 0 => Some(count),
        _ => None,
    }
}

/// What the words ask for.
pub fn asked(words: &[RcStr]) -> Option<Request> {
    match words {
        [mode, count] if mode.as_str() == "all" => Some(Request::All(count_of(count.as_str())?)),
        [mode, count] => Some(Request::One(mode_of(mode.as_str())?, count_of(count.as_str())?)),
        _ => None,
    }
}
