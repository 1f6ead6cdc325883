//! Node rules are stable.
ghost use Rattle.infer_result.specs.Own.{NodeRulesAreStable};

use hir_facts::Facts;

/// Nothing: callers learn that the rules of each body of the facts are stable. Once a node of a table
/// obeys its rule, it obeys it whatever types are put in the place of the holes that are left, the same
/// type for the same hole throughout. So whoever fills in more types, as a tool that changes code does,
/// need not look again at the nodes that are in order. A part of a pattern stays in order where the
/// whole pattern is in order too.
pub fn rules_are_stable(facts: &Facts)
    ensures { NodeRulesAreStable facts.now }
{
    facts.lawful();
}
