//! Profiles, and the features of instructions and types.

ghost use Rattle.std.specs.Prelude.{◌≡◌, ◌≢◌, IsTrue};
ghost use Rattle.wm_syntax.specs.Profiles.{Extends, has, has_prefix};
ghost use Rattle.wm_syntax.specs.declared.profile.Feature.{Feature as AFeature};

/// The features that a module may use. Each profile has `Feature::Base`.
#[derive(Clone, Copy, PartialEq, Eq, Debug)]
pub struct Profile {
    floats: bool,
    sign_extension: bool,
    long_index: bool,
    saturation: bool,
    copies: bool,
    bulk_memory: bool,
}

/// The feature that an instruction, a type or an encoding belongs to.
#[derive(Clone, Copy, PartialEq, Eq, Debug)]
pub enum Feature {
    /// WebAssembly 1.0 without floats.
    Base,
    /// The floats of WebAssembly 1.0: their types, and the instructions on them.
    Floats,
    /// The five sign-extension instructions.
    SignExtension,
    /// The table index of a `call_indirect`, which is 0, in more than one byte (WebAssembly 2.0, 5.4.1).
    LongIndex,
    /// The eight truncations that saturate (WebAssembly 2.0, 2.4.1).
    Saturation,
    /// `memory.copy` and `memory.fill` (WebAssembly 2.0, 2.4.7).
    Copies,
    /// `memory.init`, `data.drop`, `table.init`, `elem.drop`, `table.copy`, the data count section, and passive segments
    /// (WebAssembly 2.0, 2.4.6, 2.4.7, 2.5.7, 2.5.8, 5.5.12, 5.5.14 and 5.5.15).
    BulkMemory,
}

impl Profile {
    /// WebAssembly 1.0 without floats.
    pub const ONE: Profile = Profile {
        floats: false,
        sign_extension: false,
        long_index: false,
        saturation: false,
        copies: false,
        bulk_memory: false,
    };

    /// WebAssembly 1.0 without floats, and the five sign-extension instructions that came later.
    pub const TWO: Profile = Profile {
        sign_extension: true,
        ..Profile::ONE
    };

    /// All of WebAssembly 1.0.
    pub const THREE: Profile = Profile {
        floats: true,
        ..Profile::ONE
    };

    /// All of WebAssembly 1.0, and the five sign-extension instructions.
    pub const FOUR: Profile = Profile {
        floats: true,
        ..Profile::TWO
    };

    /// Returns the profile that also has the feature.
    pub fn with(self, feature: Feature) -> Profile
        ensures added { IsTrue (has result feature) }
        ensures others { (other : AFeature) → other ≢ feature → has result other ≡ has self other }
        ensures extends { Extends result self }
    {
        match feature {
            Feature::Base => self,
            Feature::Floats => Profile {
                floats: true,
                ..self
            },
            Feature::SignExtension => Profile {
                sign_extension: true,
                ..self
            },
            Feature::LongIndex => Profile {
                long_index: true,
                ..self
            },
            Feature::Saturation => Profile {
                saturation: true,
                ..self
            },
            Feature::Copies => Profile {
                copies: true,
                ..self
            },
            Feature::BulkMemory => Profile {
                bulk_memory: true,
                ..self
            },
        }
    }

    /// Whether a module of the profile may use what belongs to the feature.
    #[inline(always)]
    pub fn has(self, feature: Feature) -> bool
        ensures { result ≡ has self feature }
    {
        match feature {
            Feature::Base => true,
            Feature::Floats => self.floats,
            Feature::SignExtension => self.sign_extension,
            Feature::LongIndex => self.long_index,
            Feature::Saturation => self.saturation,
            Feature::Copies => self.copies,
            Feature::BulkMemory => self.bulk_memory,
        }
    }

    /// Whether the profile has instructions whose first byte is FC.
    #[inline(always)]
    pub fn has_prefix(self) -> bool
        ensures { result ≡ has_prefix self }
    {
        self.saturation || self.copies || self.bulk_memory
    }
}
