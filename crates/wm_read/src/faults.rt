//! The refusals of a text, re-exported from `wm_tokens` for callers of `read_text`.

pub use wm_tokens::faults::{TextRefusal, TextWhy};
