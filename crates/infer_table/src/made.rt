//! Whether a table made the holes of a type.
ghost use Rattle.std.specs.Prelude.{IfOk};
ghost use Rattle.infer_table.specs.Words.{chain, const_term, term, part_term, part_terms};
ghost use Rattle.infer_table.specs.Own.{MadeIf, HasMadeIf};

use crate::bindings::Bindings;
use crate::levels::one_level;
use crate::table::InferenceTable;
use hir_types::{Const, Hole, MOST_LEVELS, Outline, OutlinePart, Ty};
use std::alloc::{AllocError, Global};

impl Bindings {
    /// Whether a const is no hole, or one that was made.
    fn const_is_made(&self, value: Const) -> bool
        ensures { MadeIf result self.now.kinds (const_term value) }
    {
        match value {
            Const::Var(number) => self.is_made(Hole::Const(number)),
            Const::Value(_) | Const::Param(_) | Const::Unknown | Const::Hole => true,
        }
    }

    #[cycle(made)]
    fn part_is_made(
        &self,
        alloc: Global,
        part: &OutlinePart<'_>,
        levels: u32,
    ) -> Result<bool, AllocError>
        ensures { IfOk result (λ yes. MadeIf yes self.now.kinds (part_term part.now)) }
    {
        match part {
            OutlinePart::Ty(ty) => self.type_is_made(alloc, ty, levels),
            OutlinePart::Const(value) => Ok(self.const_is_made(*value)),
            OutlinePart::Mark(_) => Ok(true),
        }
    }

    #[cycle(made)]
    fn parts_are_made(
        &self,
        alloc: Global,
        parts: &[OutlinePart<'_>],
        levels: u32,
    ) -> Result<bool, AllocError>
        ensures { IfOk result (λ yes. MadeIf yes self.now.kinds (chain (part_terms parts.now))) }
    {
        for part in parts {
            if !self.part_is_made(alloc, part, levels)? {
                return Ok(false);
            }
        }
        Ok(true)
    }

    /// Whether each hole of a type was made.
    #[cycle(made)]
    fn type_is_made(&self, alloc: Global, ty: &Ty, levels: u32) -> Result<bool, AllocError>
        ensures { IfOk result (λ yes. MadeIf yes self.now.kinds (term ty.now)) }
    {
        let below = one_level(levels)?;
        match ty.outline(alloc)? {
            Outline::Hole(hole) => Ok(self.is_made(hole)),
            Outline::Node(_, parts) => self.parts_are_made(alloc, &parts, below),
        }
    }
}

impl InferenceTable {
    /// Whether the table made each hole of the type, as `unify` and `wait` require. A type of more
    /// than 2^10 levels is not looked through: that is want of memory.
    pub fn has_made(&self, ty: &Ty) -> Result<bool, AllocError>
        ensures { IfOk result (λ yes. HasMadeIf yes self.now ty.now) }
    {
        self.bindings.type_is_made(self.alloc, ty, MOST_LEVELS)
    }
}
