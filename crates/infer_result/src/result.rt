//! The types, modes and complaints of a body.
ghost use Rattle.std.specs.Prelude.{◌≡◌, option_copied};
ghost use Rattle.infer_result.specs.Own.{recorded, node_type, node_variant, gaps_at};

use crate::diagnostics::InferenceDiagnostic;
use crate::gaps::Gap;
use crate::modes::BindingMode;
use goal_facts::Proof;
use hir_facts::{BindingId, ExprId, ExprOrPatId, List, PatId, Ty, TypeRefId, VariantId};

/// Two types that should be the same, at an expression or a pattern: `infer.rs`, `TypeMismatch`.
#[derive(Debug, PartialEq, Eq, Hash)]
pub struct TypeMismatch {
    /// What the place of an expression asks for, or what comes into a pattern.
    pub expected: Ty,
    /// What the expression or the pattern is.
    pub actual: Ty,
}

impl Drop for TypeMismatch {
    fn drop(self) {
        let TypeMismatch {
            expected: _,
            actual: _,
        } = self;
    }
}

/// A look-up that failed. Its types are as they were known when the failure was found, so they may have
/// numbered holes.
#[derive(Debug, PartialEq, Eq, Hash)]
pub struct Seen {
    /// The node that needs it: a call, where what is called is no function.
    pub node: ExprOrPatId,
    /// The type that was looked at: of what is called.
    pub ty: Ty,
    /// A second type that was looked at; `None` at a call.
    pub other: Option<Ty>,
}

impl Drop for Seen {
    fn drop(self) {
        let Seen {
            node: _,
            ty: _,
            other: _,
        } = self;
    }
}

/// The types of a plain body before open holes fall back to anything: each type that is left open is a
/// numbered hole, for any type or for integer types. One hole stands for one type throughout the body,
/// and two that waited for each other are one, unless that was refused and is a mismatch. Each list has an
/// entry for each node, or for each binding, in the order of their ids.
#[derive(Debug, PartialEq, Eq)]
pub struct General {
    /// The type of each expression.
    pub exprs: List<Ty>,
    /// The type of each pattern.
    pub pats: List<Ty>,
    /// The type of each binding.
    pub bindings: List<Ty>,
}

impl Drop for General {
    fn drop(self) {
        let General {
            exprs: _,
            pats: _,
            bindings: _,
        } = self;
    }
}

/// What inference found out about a body: `infer.rs`, `InferenceResult`. Each list but `seen`, `proofs`,
/// `projections`, `expr_gaps` and `pat_gaps` has an entry for each node or binding of the body, or for each written
/// type of the facts, in the order of their ids. A reader that takes an id answers `None` where there is no
/// such id.
#[derive(Debug, PartialEq, Eq)]
pub struct InferenceResult {
    /// The type of each expression.
    pub type_of_expr: List<Option<Ty>>,
    /// The type of each pattern.
    pub type_of_pat: List<Option<Ty>>,
    /// The type of each binding.
    pub type_of_binding: List<Option<Ty>>,
    /// The constructor that each pattern over patterns is of, as an item at its arguments, those of the adt and
    /// one for each associated type in its fields; `None` where there is no such associated type.
    pub item_of_pat: List<Option<Ty>>,
    /// What each `_` that stands in the type of a `let` stands for, by its number in the list of written
    /// types; `None` at all other types.
    pub type_of_placeholder: List<Option<Ty>>,
    /// The mode of each pattern that binds.
    pub binding_modes: List<Option<BindingMode>>,
    /// The mismatch at each expression, where there is one.
    pub expr_mismatches: List<Option<TypeMismatch>>,
    /// The complaint, other than a mismatch, at each expression, where there is one.
    pub expr_diagnostics: List<Option<InferenceDiagnostic>>,
    /// The mismatch at each pattern, where there is one.
    pub pat_mismatches: List<Option<TypeMismatch>>,
    /// The complaint, other than a mismatch, at each pattern, where there is one.
    pub pat_diagnostics: List<Option<InferenceDiagnostic>>,
    /// The variant whose constructor each expression names, where it is a path to one.
    pub expr_variants: List<Option<VariantId>>,
    /// The variant whose constructor each pattern names, where it is one.
    pub pat_variants: List<Option<VariantId>>,
    /// The look-ups that failed, in the order in which they did.
    pub seen: List<Seen>,
    /// The proofs of goals, by their numbers: each names those of what its source asks for, which stand
    /// before it.
    pub proofs: List<Proof>,
    /// What each associated type that the rule of a node uses was found to be, each once, in the order in
    /// which these were first proved: the associated type, with what it is.
    pub projections: List<(Ty, Ty)>,
    /// What could not be shown at each expression; no entry where nothing was looked at.
    pub expr_gaps: List<List<Gap>>,
    /// What could not be shown at each pattern; no entry where nothing was looked at.
    pub pat_gaps: List<List<Gap>>,
    /// The types before open holes fell back, of a plain body alone.
    pub general: Option<General>,
}

impl Drop for InferenceResult {
    fn drop(self) {
        let InferenceResult {
            type_of_expr: _,
            type_of_pat: _,
            type_of_binding: _,
            item_of_pat: _,
            type_of_placeholder: _,
            binding_modes: _,
            expr_mismatches: _,
            expr_diagnostics: _,
            pat_mismatches: _,
            pat_diagnostics: _,
            expr_variants: _,
            pat_variants: _,
            seen: _,
            proofs: _,
            projections: _,
            expr_gaps: _,
            pat_gaps: _,
            general: _,
        } = self;
    }
}

impl InferenceResult {
    /// The type recorded for an expression or a pattern.
    pub fn type_of_expr_or_pat(&self, node: ExprOrPatId) -> Option<&Ty>
        ensures { option_copied result ≡ node_type self.now node }
    {
        match node {
            ExprOrPatId::ExprId(e) => self.type_of_expr.get(e.0 as usize)?.as_ref(),
            ExprOrPatId::PatId(p) => self.type_of_pat.get(p.0 as usize)?.as_ref(),
        }
    }

    /// The type recorded for a binding.
    pub fn type_of_binding(&self, binding: BindingId) -> Option<&Ty>
        ensures { option_copied result ≡ recorded self.now.type_of_binding binding.0 }
    {
        self.type_of_binding.get(binding.0 as usize)?.as_ref()
    }

    /// The constructor that a pattern over patterns is of, as an item, where associated types stand in its fields.
    pub fn item_of_pat(&self, pat: PatId) -> Option<&Ty>
        ensures { option_copied result ≡ recorded self.now.item_of_pat pat.0 }
    {
        self.item_of_pat.get(pat.0 as usize)?.as_ref()
    }

    /// What a written `_` stands for; `None` at any other type.
    pub fn type_of_type_placeholder(&self, ty: TypeRefId) -> Option<&Ty>
        ensures { option_copied result ≡ recorded self.now.type_of_placeholder ty.0 }
    {
        self.type_of_placeholder.get(ty.0 as usize)?.as_ref()
    }

    /// The mode recorded for a pattern; `None` where it binds nothing.
    pub fn binding_mode(&self, pat: PatId) -> Option<BindingMode>
        ensures { result ≡ recorded self.now.binding_modes pat.0 }
    {
        *self.binding_modes.get(pat.0 as usize)?
    }

    /// The mismatch at an expression; `None` where there is none.
    pub fn type_mismatch_for_expr(&self, e: ExprId) -> Option<&TypeMismatch>
        ensures { option_copied result ≡ recorded self.now.expr_mismatches e.0 }
    {
        self.expr_mismatches.get(e.0 as usize)?.as_ref()
    }

    /// The complaint, other than a mismatch, at an expression; `None` where there is none.
    pub fn diagnostic_for_expr(&self, e: ExprId) -> Option<&InferenceDiagnostic>
        ensures { option_copied result ≡ recorded self.now.expr_diagnostics e.0 }
    {
        self.expr_diagnostics.get(e.0 as usize)?.as_ref()
    }

    /// The mismatch at a pattern; `None` where there is none.
    pub fn type_mismatch_for_pat(&self, p: PatId) -> Option<&TypeMismatch>
        ensures { option_copied result ≡ recorded self.now.pat_mismatches p.0 }
    {
        self.pat_mismatches.get(p.0 as usize)?.as_ref()
    }

    /// The complaint, other than a mismatch, at a pattern; `None` where there is none.
    pub fn diagnostic_for_pat(&self, p: PatId) -> Option<&InferenceDiagnostic>
        ensures { option_copied result ≡ recorded self.now.pat_diagnostics p.0 }
    {
        self.pat_diagnostics.get(p.0 as usize)?.as_ref()
    }

    /// The variant whose constructor an expression names; `None` where it names none.
    pub fn variant_resolution_for_expr(&self, e: ExprId) -> Option<VariantId>
        ensures { result ≡ recorded self.now.expr_variants e.0 }
    {
        *self.expr_variants.get(e.0 as usize)?
    }

    /// The variant whose constructor a pattern names; `None` where it names none.
    pub fn variant_resolution_for_pat(&self, p: PatId) -> Option<VariantId>
        ensures { result ≡ recorded self.now.pat_variants p.0 }
    {
        *self.pat_variants.get(p.0 as usize)?
    }

    /// The variant whose constructor an expression or a pattern names; `None` where it names none.
    pub fn variant_resolution_for_expr_or_pat(&self, node: ExprOrPatId) -> Option<VariantId>
        ensures { result ≡ node_variant self.now node }
    {
        match node {
            ExprOrPatId::ExprId(e) => self.variant_resolution_for_expr(e),
            ExprOrPatId::PatId(p) => self.variant_resolution_for_pat(p),
        }
    }

    /// The look-ups that failed, also those of which no complaint tells since `{unknown}` is in the type.
    pub fn seen(&self) -> &[Seen]
        ensures { result.now ≡ self.now.seen }
    {
        self.seen.as_slice()
    }

    /// The proofs of goals, by their numbers.
    pub fn proofs(&self) -> &[Proof]
        ensures { result.now ≡ self.now.proofs }
    {
        self.proofs.as_slice()
    }

    /// What each associated type that the rule of a node uses was found to be, each once, in the order in
    /// which these were first proved: a `Ty::Projection`, with a type in which none is left to be read.
    pub fn projections(&self) -> &[(Ty, Ty)]
        ensures { result.now ≡ self.now.projections }
    {
        self.projections.as_slice()
    }

    /// What could not be shown at an expression.
    pub fn gaps_for_expr(&self, e: ExprId) -> &[Gap]
        ensures { result.now ≡ gaps_at self.now.expr_gaps e.0 }
    {
        match self.expr_gaps.get(e.0 as usize) {
            Some(gaps) => gaps.as_slice(),
            None => &[],
        }
    }

    /// What could not be shown at a pattern.
    pub fn gaps_for_pat(&self, p: PatId) -> &[Gap]
        ensures { result.now ≡ gaps_at self.now.pat_gaps p.0 }
    {
        match self.pat_gaps.get(p.0 as usize) {
            Some(gaps) => gaps.as_slice(),
            None => &[],
        }
    }

    /// The types before open holes fell back to `i32` or `{unknown}`; `None` where the body is not plain.
    pub fn general(&self) -> Option<&General>
        ensures { option_copied result ≡ self.now.general }
    {
        self.general.as_ref()
    }
}
