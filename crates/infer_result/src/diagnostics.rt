//! What is wrong with a node besides its type.

ghost use Rattle.std.specs.Prelude.{◌≡◌, IfOk};

use hir_facts::{ExprId, ExprOrPatId, Ty};
use std::alloc::{AllocError, Global};

/// A complaint at an expression or a pattern, other than a mismatch: `infer.rs`, `InferenceDiagnostic`.
#[derive(Debug, Drop, PartialEq, Eq, Hash)]
pub enum InferenceDiagnostic {
    /// The call has another number of arguments than its callee takes.
    MismatchedArgCount {
        /// The call.
        call_expr: ExprId,
        /// How many the callee takes.
        expected: usize,
        /// How many the call has.
        found: usize,
    },
    /// The pattern of a constructor has another number of parts than the constructor has fields.
    MismatchedTupleStructPatArgCount {
        /// The pattern.
        pat: ExprOrPatId,
        /// How many fields there are.
        expected: usize,
        /// How many parts the pattern has.
        found: usize,
    },
    /// What is called is no function.
    ExpectedFunction {
        /// The call.
        call_expr: ExprId,
        /// The type of what is called.
        found: Ty,
    },
}

impl InferenceDiagnostic {
    /// An equal copy, within the limits of `Ty::dup`.
    pub fn dup(&self, alloc: Global) -> Result<InferenceDiagnostic, AllocError>
        ensures { IfOk result (λ copy. copy ≡ self.now) }
    {
        match self {
            InferenceDiagnostic::MismatchedArgCount {
                call_expr,
                expected,
                found,
            } => Ok(InferenceDiagnostic::MismatchedArgCount {
                call_expr: *call_expr,
                expected: *expected,
                found: *found,
            }),
            InferenceDiagnostic::MismatchedTupleStructPatArgCount {
                pat,
                expected,
                found,
            } => Ok(InferenceDiagnostic::MismatchedTupleStructPatArgCount {
                pat: *pat,
                expected: *expected,
                found: *found,
            }),
            InferenceDiagnostic::ExpectedFunction { call_expr, found } => {
                let found = found.dup(alloc)?;
                Ok(InferenceDiagnostic::ExpectedFunction {
                    call_expr: *call_expr,
                    found,
                })
            }
        }
    }
}
