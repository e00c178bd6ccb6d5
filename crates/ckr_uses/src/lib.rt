//! Dispositions: what becomes of a step's data sets, the names that they have in the library, and which runs keep each other waiting.
#![tactic(auto)]

mod conflict;
mod disposal;
mod laws;
mod set_names;
mod uses;

pub use ckr_library::{Use, Uses};
pub use conflict::{collides, holds};
pub use disposal::{dispose, is_temporary};
pub use laws::{
    each_name_has_one_use, holding_is_at_a_name, holding_is_symmetric, names_tell_runs_apart,
    one_use_for_each_name_holds_as_all, shared_names_do_not_hold,
};
pub use set_names::{has_set_named, library_name};
pub use uses::{own_qualifier, use_in, use_of_any_syschk, uses_of};
