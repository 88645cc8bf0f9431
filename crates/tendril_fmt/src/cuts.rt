//! Where bytes are cut: at a byte of a set, into lines, at the end of a run; and which slices of a valid text are
//! valid.
//!
//! The functions return lengths, and `tendril_text` cuts its texts there.

mod byte_set;
mod lines;
mod pieces;
mod runs;
mod slices;

pub use crate::cuts::byte_set::{ByteSet, Members};
pub use crate::cuts::lines::{first_line, line_ending_len};
pub use crate::cuts::pieces::{Piece, begins_with, first_field, first_part, trimmed_range};
pub use crate::cuts::runs::run_end;
pub use crate::cuts::slices::{are_parts_valid, is_end_valid, is_front_valid, is_slice_valid};
