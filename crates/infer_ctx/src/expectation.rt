//! What is expected of an expression before it is looked at.
ghost use Rattle.std.specs.Prelude.{◌≡◌, slice_get};
ghost use Rattle.std.specs.Option.{option_copied};
ghost use Rattle.infer_ctx.specs.Own.{expected_type, element_type, known_or, of_alternatives, of_arms};

use hir_facts::Ty;
use infer_table::InferenceTable;

/// What is expected of an expression's type: `infer.rs`, `Expectation`.
#[derive(Clone, Copy)]
pub enum Expectation<'a> {
    /// Nothing.
    None,
    /// That the expression can be coerced to this type.
    HasType(&'a Ty),
}

impl<'a> Expectation<'a> {
    /// That the expression can be coerced to this type, where there is one.
    pub fn of(ty: &'a Option<Ty>) -> Expectation<'a>
        ensures { expected_type result ≡ ty.now }
    {
        match ty {
            Some(ty) => Expectation::HasType(ty),
            None => Expectation::None,
        }
    }

    /// That an expression can be coerced to the type at this position, where there is one.
    pub fn at(tys: &'a [Ty], position: usize) -> Expectation<'a>
        ensures { expected_type result ≡ slice_get tys.now position }
    {
        match tys.get(position) {
            Some(ty) => Expectation::HasType(ty),
            None => Expectation::None,
        }
    }

    /// The type that is expected: `infer.rs`, `Expectation::only_has_type`.
    pub fn only_has_type(self) -> Option<&'a Ty>
        ensures { option_copied result ≡ expected_type self.entry }
    {
        match self {
            Expectation::None => None,
            Expectation::HasType(ty) => Some(ty),
        }
    }

    /// This type, where there is one; else what is expected.
    pub fn known_as(self, known: &'a Option<Ty>) -> Expectation<'a>
        ensures { expected_type result ≡ known_or known.now (expected_type self.entry) }
    {
        match known {
            Some(ty) => Expectation::HasType(ty),
            None => self,
        }
    }

    /// What is expected of the element at a position, where this is expected of the tuple.
    pub fn of_element(self, at: usize) -> Expectation<'a>
        ensures { expected_type result ≡ element_type (expected_type self.entry) at }
    {
        match self {
            Expectation::HasType(Ty::Tuple(tys)) => match tys.get(at) {
                Some(ty) => Expectation::HasType(ty),
                None => Expectation::None,
            },
            _ => Expectation::None,
        }
    }

    /// What is expected of the alternatives of an `if` or a `match`, where this is expected of it:
    /// nothing where that is a type that is not known. This is `infer.rs`'s
    /// `Expectation::adjust_for_branches`.
    pub fn adjust_for_branches(self, table: &InferenceTable) -> Expectation<'a>
        ensures { expected_type result ≡ of_alternatives table.now (expected_type self.entry) }
    {
        match self {
            Expectation::None => Expectation::None,
            Expectation::HasType(ty) => match table.shallow_resolve(ty) {
                Ty::Var(_) => Expectation::None,
                _ => Expectation::HasType(ty),
            },
        }
    }

    /// What is expected of the arms of a `match`: nothing where that is `()`, so that the arms of a
    /// `match` that is a statement may have any type that they have in common.
    pub fn unless_unit(self, table: &InferenceTable) -> Expectation<'a>
        ensures { expected_type result ≡ of_arms table.now (expected_type self.entry) }
    {
        match self {
            Expectation::None => Expectation::None,
            Expectation::HasType(ty) => match table.shallow_resolve(ty) {
                Ty::Tuple(tys) if tys.is_empty() => Expectation::None,
                _ => Expectation::HasType(ty),
            },
        }
    }
}
