//! The laws of facts, and the lists that they speak of.
ghost use Rattle.std.specs.Prelude.{◌≡◌};
ghost use Rattle.hir_facts.specs.Own.{law_number, list_number};

/// A law of facts, in the order in which they are tested.
#[derive(Clone, Copy, Debug, PartialEq, Eq)]
pub enum Law {
    /// Each entry and part is of a kind that is carried.
    Carried,
    /// Ids are in range, and smaller where a list asks for it; each body is that of one definition;
    /// adts and variants agree, and so do traits and associated types.
    Ids,
    /// A function has as many inputs as its body has parameters, `self` counted; arguments are as
    /// many as parameters, and parameters in range; a struct has one variant.
    Counts,
    /// The nodes of a body are a tree, and each binding is bound once.
    Trees,
    /// A local names a binding that the walk has typed before.
    Scopes,
    /// Lists are not too long, trees and types not too deep.
    Sizes,
    /// The limits are in their ranges.
    Limits,
    /// Language items have the shape that they are known by.
    Lang,
    /// Literals stand for values of at most 128 bits, and characters are scalar values; the names of
    /// fields are distinct, those of a tuple numbers.
    Literals,
    /// A `_` stands once, in a type that is written in a body.
    Holes,
}

/// A list of the facts.
#[derive(Clone, Copy, Debug, PartialEq, Eq)]
pub enum FactsList {
    Types,
    Modules,
    Adts,
    Variants,
    Fns,
    Consts,
    Statics,
    Traits,
    Aliases,
    Impls,
    Opaques,
    Lang,
    Bodies,
    Limits,
}

impl Law {
    /// The law's number, from 0.
    pub fn number(self) -> u32
        ensures { result ≡ law_number self }
    {
        match self {
            Law::Carried => 0,
            Law::Ids => 1,
            Law::Counts => 2,
            Law::Trees => 3,
            Law::Scopes => 4,
            Law::Sizes => 5,
            Law::Limits => 6,
            Law::Lang => 7,
            Law::Literals => 8,
            Law::Holes => 9,
        }
    }

    /// What the law says.
    pub fn text(self) -> &'static str {
        match self {
            Law::Carried => "each entry and part is of a kind that is carried",
            Law::Ids =>
                "ids are in range, and smaller where a list asks for it, each body is that of one definition, and an entry agrees with the one that lists it",
            Law::Counts =>
                "inputs are as many as parameters of the body, arguments as parameters, and a struct has one variant",
            Law::Trees => "the nodes of a body are a tree, and each binding is bound once",
            Law::Scopes => "a local names a binding that the walk has typed before",
            Law::Sizes => "lists are not too long, and trees and types not too deep or too large",
            Law::Limits => "the limits are in their ranges",
            Law::Lang => "language items have the shape that they are known by",
            Law::Literals =>
                "literals stand for values of at most 128 bits, characters are scalar values, and names of fields are distinct",
            Law::Holes => "a `_` stands once, in a type that is written in a body",
        }
    }
}

impl FactsList {
    /// The list's number, from 0.
    pub fn number(self) -> u32
        ensures { result ≡ list_number self }
    {
        match self {
            FactsList::Types => 0,
            FactsList::Modules => 1,
            FactsList::Adts => 2,
            FactsList::Variants => 3,
            FactsList::Fns => 4,
            FactsList::Consts => 5,
            FactsList::Statics => 6,
            FactsList::Traits => 7,
            FactsList::Aliases => 8,
            FactsList::Impls => 9,
            FactsList::Opaques => 10,
            FactsList::Lang => 11,
            FactsList::Bodies => 12,
            FactsList::Limits => 13,
        }
    }

    /// The list's key in the facts text (docs/FORMAT.md).
    pub fn key(self) -> &'static str {
        match self {
            FactsList::Types => "types",
            FactsList::Modules => "modules",
            FactsList::Adts => "adts",
            FactsList::Variants => "variants",
            FactsList::Fns => "fns",
            FactsList::Consts => "consts",
            FactsList::Statics => "statics",
            FactsList::Traits => "traits",
            FactsList::Aliases => "aliases",
            FactsList::Impls => "impls",
            FactsList::Opaques => "opaques",
            FactsList::Lang => "lang",
            FactsList::Bodies => "bodies",
            FactsList::Limits => "limits",
        }
    }
}
