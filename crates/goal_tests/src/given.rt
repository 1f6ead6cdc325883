//! Facts of traits, associated types and impls alone.
use hir_facts::{
    Edition, Facts, List, RawAlias, RawFacts, RawImpl, RawLang, RawLimits, RawTrait, RawType, Text,
    TypeAliasId,
};
use hir_laws::lawful_facts;
use std::alloc::{AllocError, Global};

/// What the facts have.
#[derive(Drop)]
pub struct Items {
    pub types: List<RawType>,
    pub traits: List<RawTrait>,
    pub aliases: List<RawAlias>,
    pub impls: List<RawImpl>,
    pub lang: List<RawLang>,
}

/// A trait without parameters and predicates.
pub fn plain_trait(
    alloc: Global,
    name: &str,
    types: List<TypeAliasId>,
) -> Result<RawTrait, AllocError> {
    Ok(RawTrait {
        name: Text::from_string(String::from_str(alloc, name)?),
        params: List::new(alloc),
        preds: List::new(alloc),
        fns: List::new(alloc),
        consts: List::new(alloc),
        types,
        auto: false,
    })
}

/// The facts; that they are unlawful is an error.
pub fn given(alloc: Global, items: Items) -> Result<Facts, AllocError> {
    let limits = RawLimits {
        goal_depth: 4,
        goal_steps: 4,
        autoderef: 4,
        tail: 4,
    };
    let raw = RawFacts {
        edition: Edition::Edition2024,
        never_fallback: false,
        new_range: false,
        limits,
        types: items.types,
        modules: List::new(alloc),
        adts: List::new(alloc),
        variants: List::new(alloc),
        fns: List::new(alloc),
        consts: List::new(alloc),
        statics: List::new(alloc),
        traits: items.traits,
        aliases: items.aliases,
        impls: items.impls,
        opaques: List::new(alloc),
        lang: items.lang,
        bodies: List::new(alloc),
    };
    match lawful_facts(alloc, raw) {
        Ok(facts) => Ok(facts),
        Err(_) => Err(AllocError),
    }
}
