//! Lawful facts.
ghost use Rattle.std.specs.Prelude.{◌≡◌, ◌↔◌, ◌<◌, ℕ, IsTrue, Some, slice_get, length};
ghost use Rattle.hir_facts.specs.Words.{RawBody, AreDepths, fits};
ghost use Rattle.hir_facts.specs.Own.{is_carried_body, IsWalkable, HasBody, HasCarriedBody, body_id_of, inputs_of, FitsThere, IsLawful, AreSchedules, ArePlainMarks, IsPlainAdt, IsPlainOver, IsPlainFn, edition_year, limits_in_order};

use crate::carried_body::is_carried_body;
use crate::plain_marks::{PlainMarks, mark_at};
use hir_raw::{
    Edition, RawAdt, RawAlias, RawBody, RawFacts, RawFn, RawImpl, RawTrait, RawType, RawVariant,
    Schedule, generic_params, ty_fits,
};
use hir_types::{
    AdtId, BodyId, DefWithBodyId, FunctionId, GenericDefId, ImplId, List, ModuleId, TraitId, Ty,
    TypeAliasId, TypeRefId, VariantId,
};
use std::marker::Model;

/// Facts that obey the laws, which contracts see as the raw facts.
#[derive(Debug, Drop)]
pub struct Facts {
    raw: RawFacts,
    schedules: List<Schedule>,
    plain: PlainMarks,
}

impl Model for Facts {
    ghost use Rattle.hir_facts.specs.Words.{RawFacts};

    ghost Value = { RawFacts };

    ghost view = { λ a. a.raw };

    ghost use Rattle.hir_facts.specs.Lawful.{IsLawful};
    ghost use Rattle.hir_facts.specs.Scheduled.{AreSchedules};
    ghost use Rattle.hir_facts.specs.PlainMarks.{ArePlainMarks};

    ghost invariant = { λ a. IsLawful a.raw × AreSchedules a.raw.bodies a.schedules × ArePlainMarks a.raw a.plain };
}

impl Facts {
    /// The facts, with the numbers of their bodies and the marks of what is plain.
    pub fn new(raw: RawFacts, schedules: List<Schedule>, plain: PlainMarks) -> Facts
        requires lawful { IsLawful raw }
        requires schedules { AreSchedules raw.bodies schedules }
        requires plain { ArePlainMarks raw plain }
        ensures { result ≡ raw }
    {
        Facts {
            raw,
            schedules,
            plain,
        }
    }

    /// Nothing: callers learn that facts are lawful.
    pub fn lawful(&self)
        ensures { IsLawful self.now }
    {
        let _raw = &self.raw;
    }

    /// The facts as they were read.
    pub fn raw(&self) -> &RawFacts
        ensures value { result.now ≡ self.now }
        ensures lawful { IsLawful result.now }
    {
        &self.raw
    }

    /// The year of the crate's edition: 2015, 2018, 2021 or 2024.
    pub fn edition(&self) -> u16
        ensures { result ≡ edition_year self.now.edition }
    {
        match self.raw.edition {
            Edition::Edition2015 => 2015,
            Edition::Edition2018 => 2018,
            Edition::Edition2021 => 2021,
            Edition::Edition2024 => 2024,
        }
    }

    /// Whether what never returns falls back to `!`.
    pub fn never_fallback(&self) -> bool
        ensures { result ≡ self.now.never_fallback }
    {
        self.raw.never_fallback
    }

    /// Whether ranges are those of `core::range`.
    pub fn new_range(&self) -> bool
        ensures { result ≡ self.now.new_range }
    {
        self.raw.new_range
    }

    /// How far searches may go: levels of goals, goals selected for a body, dereferences of a
    /// receiver, and last fields that are followed for the size of a type.
    pub fn limits(&self) -> [u32; 4]
        ensures { result ≡ limits_in_order self.now.limits }
    {
        let limits = self.raw.limits;
        [
            limits.goal_depth,
            limits.goal_steps,
            limits.autoderef,
            limits.tail,
        ]
    }

    /// The written types.
    pub fn types(&self) -> &[RawType]
        ensures { result.now ≡ self.now.types }
    {
        self.raw.types.as_slice()
    }

    /// A written type.
    pub fn written(&self, ty: TypeRefId) -> &RawType
        requires { ty.0 < length self.now.types }
        ensures { slice_get self.now.types ty.0 ≡ Some result.now }
    {
        let types = self.raw.types.as_slice();
        &types[ty.0 as usize]
    }

    /// The module that a module stands in, or `None` at the root.
    pub fn module(&self, id: ModuleId) -> Option<ModuleId>
        requires { id.0 < length self.now.modules }
        ensures { slice_get self.now.modules id.0 ≡ Some result }
    {
        let modules = self.raw.modules.as_slice();
        modules[id.0 as usize]
    }

    /// An adt.
    pub fn adt(&self, adt: AdtId) -> &RawAdt
        requires { adt.0 < length self.now.adts }
        ensures { slice_get self.now.adts adt.0 ≡ Some result.now }
    {
        let adts = self.raw.adts.as_slice();
        &adts[adt.0 as usize]
    }

    /// A variant.
    pub fn variant(&self, variant: VariantId) -> &RawVariant
        requires { variant.0 < length self.now.variants }
        ensures { slice_get self.now.variants variant.0 ≡ Some result.now }
    {
        let variants = self.raw.variants.as_slice();
        &variants[variant.0 as usize]
    }

    /// A function.
    pub fn fn_(&self, function: FunctionId) -> &RawFn
        requires { function.0 < length self.now.fns }
        ensures { slice_get self.now.fns function.0 ≡ Some result.now }
    {
        let fns = self.raw.fns.as_slice();
        &fns[function.0 as usize]
    }

    /// A trait.
    pub fn trait_(&self, id: TraitId) -> &RawTrait
        requires { id.0 < length self.now.traits }
        ensures { slice_get self.now.traits id.0 ≡ Some result.now }
    {
        let traits = self.raw.traits.as_slice();
        &traits[id.0 as usize]
    }

    /// An associated type.
    pub fn alias(&self, alias: TypeAliasId) -> &RawAlias
        requires { alias.0 < length self.now.aliases }
        ensures { slice_get self.now.aliases alias.0 ≡ Some result.now }
    {
        let aliases = self.raw.aliases.as_slice();
        &aliases[alias.0 as usize]
    }

    /// An impl.
    pub fn impl_(&self, id: ImplId) -> &RawImpl
        requires { id.0 < length self.now.impls }
        ensures { slice_get self.now.impls id.0 ≡ Some result.now }
    {
        let impls = self.raw.impls.as_slice();
        &impls[id.0 as usize]
    }

    /// A body.
    pub fn body(&self, body: BodyId) -> &RawBody
        requires { body.0 < length self.now.bodies }
        ensures { slice_get self.now.bodies body.0 ≡ Some result.now }
    {
        let bodies = self.raw.bodies.as_slice();
        &bodies[body.0 as usize]
    }

    /// The numbers of a body in the order of the walk, which goes over bodies that are carried.
    pub fn schedule(&self, body: BodyId) -> &Schedule
        requires { body.0 < length self.now.bodies }
        ensures walkable { (b : RawBody) → slice_get self.now.bodies body.0 ≡ Some b → IsTrue (is_carried_body b) → IsWalkable b result.now }
        ensures depths { (b : RawBody) → slice_get self.now.bodies body.0 ≡ Some b → AreDepths b result.now }
    {
        let schedules = self.schedules.as_slice();
        &schedules[body.0 as usize]
    }

    /// Whether an adt is plain.
    pub fn is_plain_adt(&self, adt: AdtId) -> bool
        ensures { IsTrue result ↔ IsPlainAdt self.now adt.0 }
    {
        let node = self.raw.types.len() + adt.0 as usize;
        mark_at(self.plain.nodes.as_slice(), node)
    }

    /// Whether a written type is plain, over parameters under which it fits.
    pub fn is_plain_type(&self, ty: TypeRefId) -> bool
        ensures { (n : ℕ) → FitsThere self.now n ty.0 → IsTrue result ↔ IsPlainOver self.now n ty }
    {
        mark_at(self.plain.nodes.as_slice(), ty.0 as usize)
    }

    /// Whether a function is there, and its signature is plain.
    pub fn is_plain_fn(&self, function: FunctionId) -> bool
        ensures { IsTrue result ↔ IsPlainFn self.now function }
    {
        mark_at(self.plain.fns.as_slice(), function.0 as usize)
    }

    /// The body of a definition, or `None` where it has none or is not in range.
    pub fn body_id(&self, def: DefWithBodyId) -> Option<BodyId>
        ensures { result ≡ body_id_of self.now def }
    {
        match def {
            DefWithBodyId::FunctionId(function) => match self.raw.fns.get(function.0 as usize) {
                Some(function) => function.body,
                None => None,
            },
            DefWithBodyId::ConstId(_) | DefWithBodyId::StaticId(_) | DefWithBodyId::VariantId(_) =>
                None,
        }
    }

    /// The written types of a definition's parameters.
    pub fn inputs(&self, def: DefWithBodyId) -> &[TypeRefId]
        ensures { result.now ≡ inputs_of self.now def }
    {
        match def {
            DefWithBodyId::FunctionId(function) => match self.raw.fns.get(function.0 as usize) {
                Some(function) => function.inputs.as_slice(),
                None => &[],
            },
            DefWithBodyId::ConstId(_) | DefWithBodyId::StaticId(_) | DefWithBodyId::VariantId(_) =>
                &[],
        }
    }

    /// Whether a definition is in range and has a body.
    pub fn has_body(&self, def: DefWithBodyId) -> bool
        ensures { IsTrue result ↔ HasBody self.now def }
    {
        self.body_id(def).is_some()
    }

    /// Whether a definition is in range and has a body that inference carries.
    pub fn has_carried_body(&self, def: DefWithBodyId) -> bool
        ensures { IsTrue result ↔ HasCarriedBody self.now def }
    {
        self.lawful();
        match self.body_id(def) {
            None => false,
            Some(body) => is_carried_body(self.body(body)),
        }
    }

    /// Whether each id and parameter in a type is in range, under the parameters of an item, and
    /// arguments are as many as parameters.
    pub fn fits(&self, item: GenericDefId, ty: &Ty) -> bool
        ensures { result ≡ fits self.now item ty.now }
    {
        ty_fits(&self.raw, generic_params(&self.raw, item), ty)
    }
}
