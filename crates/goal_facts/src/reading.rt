//! What types read as once associated types are replaced.
ghost use Rattle.std.specs.Prelude.{IfOk};
ghost use Rattle.goal_facts.specs.Own.{IsTypeRead, IsSystemOf};
ghost use Rattle.goal_facts.specs.Words.{system};

use crate::item_sources::ItemSources;
use goal_search::{Holes, MOST_LEVELS};
use goal_terms::{term_type, type_term};
use hir_facts::Ty;
use std::alloc::{AllocError, Global};

impl ItemSources<'_> {
    /// What a type, whose holes stay, reads as at the depth to which the facts let goals be followed, each associated type in it
    /// as what it is; one that stays is a type of its own. Nothing where one is open.
    pub fn read_ty(&self, alloc: Global, ty: &Ty) -> Result<Option<Ty>, AllocError>
        ensures given { IfOk result (λ _. IsSystemOf self.now.facts self.now.item (system self.now.sources)) }
        ensures read { IfOk result (λ found. IsTypeRead (system self.now.sources) self.now.facts.limits.goal_depth ty.now found) }
    {
        self.lawful();
        let term = type_term(alloc, ty)?;
        let depth = self.facts().raw().limits.goal_depth;
        let read = self
            .search(alloc)
            .read(&term, Holes::Stay, depth, MOST_LEVELS)?;
        let Some(read) = read else {
            return Ok(None);
        };
        let made = term_type(alloc, &read)?;
        let same = type_term(alloc, &made)?.is_same(&read);
        Ok(if same { Some(made) } else { None })
    }
}
