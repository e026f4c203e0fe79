//! Tests of the encoder and the printer.

use wm_write::laws;

mod encode;
mod narrow;
mod print;

#[test]
fn laws_are_called(_rt: HostRuntime) {
    laws::canon_spells();
    laws::spelled_has_canon();
    laws::canon_has_shortest_sections();
    laws::ops_have_their_length();
    laws::one_canon_one_module();
    laws::canon_loads();
    laws::loaded_modules_by_their_bytes();
    laws::printed_texts_write_their_modules();
}
