//! Texts that are made here: cut off, deep, long or no text; and ends that fail.
use crate::Checks;
use crate::rows::{facts_beside, put};
use crate::runs::{PLAIN, Way, compare_end, ran};
use std::alloc::{AllocError, Global};
use std::io;
use std::rt::Files;

/// `let x = 1u8; x`
const LET: &str =
    r#"2,"exprs":[["lit",["int","1","u8"]],["path",["local",0,null]],["block",null,[["let",0,null,0,null]],1]],"pats":[["bind",0,null]],"bindings":[["x","plain"]]"#;

const LET_REPORT: &str = "fn 0\ne0 u8\ne1 u8\ne2 u8\np0 u8 move\nb0 u8\ncomplaints 0\n";

const NO_JSON: &str = "6 the text is no JSON in UTF-8, or nests more than 127 arrays and objects";

const AT_TOP: &str =
    "7 the whole text has another shape: an object with exactly the 18 keys of docs/FORMAT.md, or for `session` with `facts` and `commands`, is wanted";

const DEEP_BODY: &str =
    "8 law 5 is broken at bodies[0]: lists are not too long, and trees and types not too deep or too large";

const MODULES: &str =
    "8 law 5 is broken at modules[1048576]: lists are not too long, and trees and types not too deep or too large";

const DEEP_TYPE: &str =
    "8 law 5 is broken at types[64]: lists are not too long, and trees and types not too deep or too large";

const LARGE_TYPE: &str =
    "8 law 5 is broken at types[12]: lists are not too long, and trees and types not too deep or too large";

/// Runs so on a text, and looks at how that ended and at what was written.
fn check_text(
    rt: &(impl Eprint + AllocGlobal),
    way: &Way<'_>,
    text: &[u8],
    end: &str,
    report: &str,
    checks: &mut Checks,
) -> io::Result<()> {
    let alloc = rt.alloc();
    let found = ran(alloc, way, text)?;
    let mut wrong = String::new(alloc);
    compare_end(&mut wrong, alloc, &found, end, report)?;
    let size = text.len();
    let name = format!(in alloc; "a text of {size} bytes")?;
    checks.note(rt, name.as_str(), wrong.as_str())
}

/// Cuts a text off at each place, and adds to its end.
fn check_cut_off(
    rt: &(impl Eprint + AllocGlobal),
    text: &str,
    checks: &mut Checks,
) -> io::Result<()> {
    let padded = format!(in rt.alloc(); "{text} \n\t")?;
    check_text(rt, &PLAIN, padded.as_bytes(), "0", LET_REPORT, checks)?;
    for count in 0..text.len() {
        if let Some((front, _)) = text.split_at_checked(count) {
            check_text(rt, &PLAIN, front.as_bytes(), NO_JSON, "", checks)?;
        }
    }
    Ok(())
}

fn check_ends(rt: &(impl Eprint + AllocGlobal), text: &str, checks: &mut Checks) -> io::Result<()> {
    let cut = Way {
        most: 8,
        sink_fails: &[1],
        ..PLAIN
    };
    check_text(rt, &cut, text.as_bytes(), "4", "fn 0\ne0 ", checks)?;
    let unread = Way {
        source_fails: &[0],
        ..PLAIN
    };
    check_text(rt, &unread, text.as_bytes(), "3", "", checks)
}

/// Fails the ends of a session, and gives it more than is read.
fn check_session(
    rt: &(impl Eprint + AllocGlobal),
    text: &str,
    checks: &mut Checks,
) -> io::Result<()> {
    let alloc = rt.alloc();
    let mut asked = String::from_str(alloc, "{\"facts\":")?;
    asked.push_str(text)?;
    asked.push_str(",\"commands\":[[\"table\",\"fn\",0]]}")?;
    let cut = Way {
        words: "session",
        most: 8,
        sink_fails: &[1],
        ..PLAIN
    };
    check_text(rt, &cut, asked.as_bytes(), "4", "fn 0\ne0 ", checks)?;
    let unread = Way {
        words: "session",
        source_fails: &[0],
        ..PLAIN
    };
    check_text(rt, &unread, asked.as_bytes(), "3", "", checks)?;
    let long = Way {
        words: "session",
        ..PLAIN
    };
    let spaces = vec![in alloc; b' '; 16_777_217]?;
    check_text(rt, &long, &spaces, "10", "", checks)
}

/// As many brackets, one in another.
fn nested(alloc: Global, count: usize) -> Result<String, AllocError> {
    let mut text = String::new(alloc);
    for _ in 0..count {
        text.push_str("[")?;
    }
    for _ in 0..count {
        text.push_str("]")?;
    }
    Ok(text)
}

/// A body of blocks, each the tail of the next, as deep as this.
fn deep(alloc: Global, depth: usize) -> Result<String, AllocError> {
    let mut exprs = String::from_str(alloc, "[\"lit\",[\"int\",\"1\",\"u8\"]]")?;
    for at in 1..depth {
        let below = at - 1;
        write!(exprs, ",[\"block\",null,[],{below}]")?;
    }
    let root = depth.saturating_sub(1);
    format!(in alloc; "{root},\"exprs\":[{exprs}],\"pats\":[],\"bindings\":[]")
}

/// The report on such a body.
fn deep_report(alloc: Global, depth: usize) -> Result<String, AllocError> {
    let mut text = String::from_str(alloc, "fn 0\n")?;
    for at in 0..depth {
        write!(text, "e{at} u8\n")?;
    }
    text.push_str("complaints 0\n")?;
    Ok(text)
}

/// `"u8"`, and this many tuples, each of `width` of the type before it.
fn wide(alloc: Global, count: usize, width: usize) -> Result<String, AllocError> {
    let mut text = String::from_str(alloc, "[\"u8\"")?;
    for at in 0..count {
        text.push_str(",[\"tuple\",[")?;
        for part in 0..width {
            let comma = if part == 0 { "" } else { "," };
            write!(text, "{comma}{at}")?;
        }
        text.push_str("]]")?;
    }
    text.push_str("]")?;
    Ok(text)
}

/// More modules than a list may have.
fn many_modules(alloc: Global) -> Result<String, AllocError> {
    let mut modules = String::from_str(alloc, "\"modules\":[null")?;
    for _ in 0..1_048_576 {
        modules.push_str(",null")?;
    }
    Ok(modules)
}

/// Looks at a text that has `new` in the place of `old`.
fn check_changed(
    rt: &(impl Eprint + AllocGlobal),
    (text, old, new): (&str, &str, &String),
    end: &str,
    report: &str,
    checks: &mut Checks,
) -> io::Result<()> {
    let mut changed = String::from_str(rt.alloc(), text)?;
    put(rt.alloc(), &mut changed, old, new.as_str())?;
    check_text(rt, &PLAIN, changed.as_bytes(), end, report, checks)
}

fn check_depths(
    rt: &(impl Eprint + AllocGlobal),
    text: &str,
    checks: &mut Checks,
) -> io::Result<()> {
    let alloc = rt.alloc();
    let fits = nested(alloc, 127)?;
    check_text(rt, &PLAIN, fits.as_bytes(), AT_TOP, "", checks)?;
    let past = nested(alloc, 128)?;
    check_text(rt, &PLAIN, past.as_bytes(), NO_JSON, "", checks)?;
    let fits = deep(alloc, 256)?;
    let report = deep_report(alloc, 256)?;
    check_changed(rt, (text, LET, &fits), "0", report.as_str(), checks)?;
    let past = deep(alloc, 257)?;
    check_changed(rt, (text, LET, &past), DEEP_BODY, "", checks)
}

fn check_sizes(
    rt: &(impl Eprint + AllocGlobal),
    text: &str,
    checks: &mut Checks,
) -> io::Result<()> {
    let alloc = rt.alloc();
    let types = "[\"u8\"]";
    let deep = wide(alloc, 64, 1)?;
    check_changed(rt, (text, types, &deep), DEEP_TYPE, "", checks)?;
    let large = wide(alloc, 12, 2)?;
    check_changed(rt, (text, types, &large), LARGE_TYPE, "", checks)?;
    let modules = many_modules(alloc)?;
    check_changed(
        rt,
        (text, "\"modules\":[null", &modules),
        MODULES,
        "",
        checks,
    )?;
    let spaces = vec![in alloc; b' '; 16_777_217]?;
    check_text(rt, &PLAIN, &spaces, "10", "", checks)
}

/// Looks at texts that are made of those beside this file.
pub fn check(
    rt: &(impl Files + Eprint + AllocGlobal),
    path: &str,
    checks: &mut Checks,
) -> io::Result<()> {
    let mut text = facts_beside(rt, path, "byte")?;
    put(rt.alloc(), &mut text, "\"$body\"", LET)?;
    check_cut_off(rt, text.as_str(), checks)?;
    check_ends(rt, text.as_str(), checks)?;
    check_session(rt, text.as_str(), checks)?;
    check_depths(rt, text.as_str(), checks)?;
    check_sizes(rt, text.as_str(), checks)?;
    check_text(rt, &PLAIN, b"{\"a\":\"\xff\"}", NO_JSON, "", checks)
}
