//! Tests of profiles.

use wm_syntax::profile::{Feature, Profile};

#[test]
fn features_are_added(rt: HostRuntime) {
    let one = Profile::ONE;
    assert!(rt; one.with(Feature::Base) == one);
    assert!(rt; one.with(Feature::Floats) == Profile::THREE);
    assert!(rt; one.with(Feature::SignExtension) == Profile::TWO);
    assert!(rt; Profile::TWO.with(Feature::Floats) == Profile::FOUR);
    assert!(rt; Profile::THREE.with(Feature::SignExtension) == Profile::FOUR);
    assert!(rt; !Profile::FOUR.has(Feature::LongIndex));
    assert!(rt; one.with(Feature::LongIndex).has(Feature::LongIndex));
    assert!(rt; one.with(Feature::LongIndex) != one);
    assert!(rt; !Profile::FOUR.has(Feature::Saturation) && !Profile::FOUR.has(Feature::Copies));
    assert!(rt; !one.has_prefix() && !one.with(Feature::LongIndex).has_prefix());
    assert!(rt;
        one.with(Feature::Saturation).has_prefix() && one.with(Feature::Copies).has_prefix()
    );
    assert!(rt; !one.with(Feature::Saturation).has(Feature::Copies));
    assert!(rt; !Profile::FOUR.has(Feature::BulkMemory));
    assert!(rt; one.with(Feature::BulkMemory).has_prefix());
}
