//! What the operands of a statement mean: the values of JOB, EXEC and DD, and which keywords and values are read.
#![tactic(auto)]

mod dcb_values;
mod dd_values;
mod job_values;
mod keywords;
mod parm_values;

pub use dcb_values::{DcbText, dcb_value, no_dcb};
pub use dd_values::{DsnText, VolText, disp_of, disp_value, dsn_value, space_value, vol_value};
pub use job_values::{RestartText, StepReference, rd_value, restart_value};
pub use keywords::{
    is_known_keyword, is_left_out, is_left_out_alone, is_positional, is_right_value,
    positional_room, value_of,
};
pub use parm_values::{ParmText, parm_value};
