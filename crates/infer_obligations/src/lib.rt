//! Goals while a body is walked: what nodes need is registered where they have their types, and selected after
//! the arguments of each call, and at the end.
#![tactic(auto)]

mod lets;
mod own;
mod read;
mod register;
mod select;

pub use lets::let_types;
pub use own::{OwnTypes, own_types};
pub use read::{read_all, read_for, read_pat, select_and_read, settle_needs};
pub use register::{register_each, register_needs};
pub use select::{select_obligations_where_possible, select_registered};
