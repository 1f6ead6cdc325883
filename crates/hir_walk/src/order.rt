//! The nodes of a body by their numbers.
ghost use Rattle.std.specs.Prelude.{◌≡◌, Some, None, IfOk, slice_set};
ghost use Rattle.hir_walk.specs.Words.{RawBody, IsSchedule};
ghost use Rattle.hir_walk.specs.Numbered.{AreNumbered, last_or_none};

use hir_raw::Schedule;
use std::alloc::{AllocError, Global};

fn note(order: &mut Vec<Option<usize>>, number: usize, node: usize)
    ensures { order.new.items ≡ slice_set order.old.items number (Some node) }
{
    if number < order.len() {
        order[number] = Some(node);
    }
}

/// The number after those of all nodes.
fn count_of(schedule: &Schedule) -> usize
    ensures { result ≡ last_or_none schedule.now.ends }
{
    match schedule.ends.as_slice().last() {
        None => 0,
        Some(end) => *end,
    }
}

/// The position of the node with each number.
pub fn nodes_in_order(alloc: Global, schedule: &Schedule) -> Result<Vec<Option<usize>>, AllocError>
    ensures { IfOk result (λ order. (b : RawBody) → IsSchedule b schedule.now → AreNumbered b schedule.now order.items) }
{
    let mut order = vec![in alloc; None; count_of(schedule)]?;
    for (node, number) in schedule.starts.as_slice().iter().enumerate() {
        note(&mut order, *number, node);
    }
    Ok(order)
}
