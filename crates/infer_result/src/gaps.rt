//! What of a body could not be shown.

use hir_facts::{ExprOrPatId, Goal, Ty};

/// A complaint that is rust-analyzer's own no diagnostic of: its inference is silent there.
#[derive(Debug, Drop, PartialEq, Eq)]
pub enum Gap {
    /// The node needs a goal, as a function needs its bounds, that has no proof.
    Unproved {
        /// The path to the item whose predicate it is.
        node: ExprOrPatId,
        /// The predicate, at the arguments of the path.
        goal: Goal,
    },
    /// An associated type that the node uses is two types, each by a proof: what the environment says of it by
    /// one clause, say, and by another. The rules at the node hold all the same.
    Clash {
        /// The path to the item that uses the associated type at the second type.
        node: ExprOrPatId,
        /// The associated type, as a `Ty::Projection`.
        alias: Ty,
        /// What it was found to be first: `InferenceResult::projections` has it so.
        first: Ty,
        /// What it is at the node.
        second: Ty,
    },
}
