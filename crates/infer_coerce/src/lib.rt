//! Types made equal, coercions, and the common type of several expressions: `infer/coerce.rs`, and the
//! part of `infer/unify.rs` that looks after pairs of types which wait.
#![tactic(auto)]

mod coerce_many;
mod coercion;
mod copied;
mod expr;
mod unification;

pub use coerce_many::CoerceMany;
pub use coercion::{Coerced, NotCoercible, coerce, demand_coerce};
pub use copied::copies;
pub use expr::infer_expr_coerce;
pub use unification::{unify, unify_all, unify_known, unify_unknown};
