//! Rules that hold of a goal that is read.
ghost use Rattle.std.specs.Prelude.{◌≡◌, IfOk};
ghost use Rattle.goal_prove.specs.Words.{Each, answers, known_below, term_of, kind_of, rules_of, system, IsDone, RuleHasHeads};
ghost use Rattle.goal_prove.specs.Own.{FitIs};

use crate::lower::fits;
use goal_search::{Kind, Rule, Search, is_same_kind};
use goal_terms::{Binding, Term};
use std::alloc::AllocError;

/// A rule that holds, by its place, and what stands for its holes.
#[derive(Debug, Drop)]
pub struct Found {
    pub place: usize,
    pub fills: Vec<Binding>,
}

/// The first rule of the kind that reads as the target, its predicates being Yes below the depth.
pub fn find_fit(
    search: &mut Search<'_>,
    rules: &[Rule],
    kind: Kind,
    target: &Term,
    depth: u32,
) -> Result<Option<Found>, AllocError>
    requires rules { Each RuleHasHeads (rules_of rules.now) }
    requires target { IsDone (term_of target.now) }
    ensures same { search.new ≡ search.old }
    ensures answer { IfOk result (λ found. FitIs (answers (system search.old) depth).Alias (known_below (system search.old) depth) (rules_of rules.now) (kind_of kind) (term_of target.now) found) }
{
    for place in 0..rules.len() {
        let rule = &rules[place];
        if !is_same_kind(rule.head.kind, kind) {
            continue;
        }
        if let Some(fills) = fits(search, rule, target, depth, depth)? {
            return Ok(Some(Found { place, fills }));
        }
    }
    Ok(None)
}
