//! The most general instance that a rule's part and a term have in common.
ghost use Rattle.std.specs.Prelude.{◌≡◌, IfOk, MatchOption};
ghost use Rattle.goal_terms.specs.Words.{IsRead, IsApart};
ghost use Rattle.goal_terms.specs.Own.{term_of, HasHeads, log_of, fill_of, resolved_all, IsCommon};

use crate::binding::{Binding, bind, resolve};
use crate::equate::{MOST_DEPTH, make_equal};
use crate::opening::{Opening, number_above};
use crate::term::Term;
use std::alloc::{AllocError, Global};

/// What the names stand for under some bindings.
fn resolve_all(
    alloc: Global,
    log: &[Binding],
    names: &[Binding],
) -> Result<Vec<Binding>, AllocError>
    ensures { IfOk result (λ made. log_of made.items ≡ resolved_all (log_of log.now) (log_of names.now)) }
{
    let mut made = Vec::new(alloc);
    for name in names {
        let term = resolve(alloc, log, &name.term)?;
        bind(&mut made, name.hole, term)?;
    }
    Ok(made)
}

/// What the holes of a rule's part stand for where it reads as the most general instance of the
/// target that it may read as, its aliases as anything; or `None` where it may read as none.
pub fn find_common(
    alloc: Global,
    part: &Term,
    target: &Term,
) -> Result<Option<Vec<Binding>>, AllocError>
    requires read { IsRead (term_of target.now) }
    requires part_heads { HasHeads (term_of part.now) }
    requires target_heads { HasHeads (term_of target.now) }
    ensures { IfOk result (λ found. MatchOption found (IsApart (term_of part.now) (term_of target.now)) (λ fills. IsCommon (term_of part.now) (term_of target.now) (fill_of (log_of fills.items)))) }
{
    let mut opening = Opening {
        names: Vec::new(alloc),
        next: number_above(target)?,
    };
    let opened = opening.open(alloc, part)?;
    if !opened.is_read() {
        return Ok(None);
    }
    let mut log = Vec::new(alloc);
    if !make_equal(alloc, &mut log, &opened, target, MOST_DEPTH)? {
        return Ok(None);
    }
    let fills = resolve_all(alloc, &log, &opening.names)?;
    Ok(Some(fills))
}
