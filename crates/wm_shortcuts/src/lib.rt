//! Fast paths: each takes many bytes in bulk, with the effect of the slow path (the machine's step for each byte).
//!
//! A fast path decides itself whether it applies. It updates the machine and passes the items that the bytes complete
//! to the sink; the decoder does the rest.
#![tactic(auto)]

mod byte_runs;
mod chains;
mod code_entries;
mod constants;
mod exports;
mod frame_bytes;
mod frames;
mod function_types;
pub mod give;
mod globals;
mod heads;
mod imports;
mod in_body;
mod in_section;
mod indices;
mod limited;
mod op_groups;
mod segments;
mod short_bytes;
mod short_steps;
pub mod ways;
mod whole_indices;
mod whole_names;
mod whole_numbers;
mod whole_ops;
