//! Places in the facts text, in words.

use hir_facts::FactsList;
use std::fmt;

/// What of an entry is meant.
#[derive(Clone, Copy)]
enum PlaceStep {
    Whole,
    Key(&'static str),
    Item(&'static str, usize),
}

/// An entry of a list of the facts, or a part of it: `bodies[0].exprs[3]`.
#[derive(Clone, Copy)]
pub struct Place {
    list: FactsList,
    index: usize,
    part: PlaceStep,
}

impl Place {
    /// A whole entry.
    pub fn new(list: FactsList, index: usize) -> Place {
        Place {
            list,
            index,
            part: PlaceStep::Whole,
        }
    }

    /// The entry's position in its list.
    pub fn index(self) -> usize {
        self.index
    }

    /// What the entry has under a key.
    pub fn key(self, key: &'static str) -> Place {
        Place {
            part: PlaceStep::Key(key),
            ..self
        }
    }

    /// An item of a list of the entry.
    pub fn item(self, key: &'static str, at: usize) -> Place {
        Place {
            part: PlaceStep::Item(key, at),
            ..self
        }
    }
}

impl fmt::Display for Place {
    fn fmt<W: fmt::Write>(&self, f: &mut fmt::Formatter<W>) -> fmt::Result {
        let list = self.list.key();
        let index = self.index;
        write!(f, "{list}[{index}]")?;
        match self.part {
            PlaceStep::Whole => Ok(()),
            PlaceStep::Key(key) => write!(f, ".{key}"),
            PlaceStep::Item(key, at) => write!(f, ".{key}[{at}]"),
        }
    }
}

/// A path of keys and positions joined by points, written as a place: `bodies.0.root` is `bodies[0].root`.
#[derive(Clone, Copy)]
pub struct Path<'a>(pub &'a str);

impl fmt::Display for Path<'_> {
    fn fmt<W: fmt::Write>(&self, f: &mut fmt::Formatter<W>) -> fmt::Result {
        for (at, step) in self.0.split('.').enumerate() {
            if step.bytes().all(|byte| byte.is_ascii_digit()) {
                write!(f, "[{step}]")?;
            } else if at == 0 {
                write!(f, "{step}")?;
            } else {
                write!(f, ".{step}")?;
            }
        }
        Ok(())
    }
}

/// So many of something: `1 input`, `2 inputs`.
#[derive(Clone, Copy)]
pub struct Counted<'a>(pub usize, pub &'a str);

impl fmt::Display for Counted<'_> {
    fn fmt<W: fmt::Write>(&self, f: &mut fmt::Formatter<W>) -> fmt::Result {
        let Counted(count, noun) = *self;
        if count == 1 {
            write!(f, "1 {noun}")
        } else {
            write!(f, "{count} {noun}s")
        }
    }
}

/// The most characters of a text that are shown.
const MOST_SHOWN: usize = 60;

/// A text of the facts in backticks: its front where it is long, with what can't be seen escaped.
#[derive(Clone, Copy, PartialEq, Eq)]
pub struct Quoted<'a>(pub &'a str);

impl fmt::Display for Quoted<'_> {
    fn fmt<W: fmt::Write>(&self, f: &mut fmt::Formatter<W>) -> fmt::Result {
        write!(f, "`")?;
        for shown in self.0.chars().take(MOST_SHOWN) {
            let shown = shown.escape_debug();
            write!(f, "{shown}")?;
        }
        if self.0.chars().nth(MOST_SHOWN).is_some() {
            write!(f, "..")?;
        }
        write!(f, "`")
    }
}
