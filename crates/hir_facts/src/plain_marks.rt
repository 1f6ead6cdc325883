//! The marks of what is plain.
ghost use Rattle.std.specs.Prelude.{◌≡◌, slice_index_or, false};

use hir_types::List;

/// Which written types, adts and functions are plain.
#[derive(Debug, Drop)]
pub struct PlainMarks {
    /// Of the written types, and then of the adts.
    pub nodes: List<bool>,
    /// Of the functions, by their signatures.
    pub fns: List<bool>,
}

/// Whether a mark stands at a position, past the end too.
pub fn mark_at(marks: &[bool], at: usize) -> bool
    ensures { result ≡ slice_index_or marks.now at false }
{
    match marks.get(at) {
        None => false,
        Some(mark) => *mark,
    }
}
