//! The options whose values are numbers, with the range and the default of each.

/// An option whose value is a number from `least` to `most`. Without a default it has to be given.
#[derive(Clone, Copy)]
pub(crate) struct NumberOption {
    pub name: &'static str,
    pub least: u32,
    pub most: u32,
    pub default: Option<u32>,
}

/// How many workers a link has.
pub(crate) const JOBS: NumberOption = NumberOption {
    name: "jobs",
    least: 1,
    most: 64,
    default: Some(1),
};

/// The greatest instruction count of a function that is imported along one call.
pub(crate) const IMPORT_LIMIT: NumberOption = NumberOption {
    name: "import-limit",
    least: 0,
    most: 200_000,
    default: Some(100),
};

/// The greatest instruction count of a function that is inlined.
pub(crate) const INLINE_LIMIT: NumberOption = NumberOption {
    name: "inline-limit",
    least: 0,
    most: 20_000,
    default: Some(40),
};

/// How many steps a run may take.
pub(crate) const STEPS: NumberOption = NumberOption {
    name: "steps",
    least: 1,
    most: 4_000_000_000,
    default: Some(1_000_000),
};

/// Where the generator of modules begins.
pub(crate) const SEED: NumberOption = NumberOption {
    name: "seed",
    least: 0,
    most: 2_147_483_647,
    default: None,
};

/// How many modules are generated.
pub(crate) const MODULES: NumberOption = NumberOption {
    name: "modules",
    least: 1,
    most: 4_096,
    default: None,
};
