//! The properties that have come in a component.
ghost use Rattle.std.specs.Prelude.{◌≡◌};

use crate::property::Property;

/// The properties that have come in a component so far, each a bit of a word.
#[derive(Clone, Copy)]
pub struct SeenNames(u32);

impl SeenNames {
    ghost use Rattle.cal_object.specs.Seen as spec;

    /// None has come.
    pub fn none() -> SeenNames
        ensures { result ≡ spec.none_seen }
    {
        SeenNames(0)
    }

    /// Whether a property has come.
    pub fn has(self, property: Property) -> bool
        ensures { result ≡ spec.has_seen self property }
    {
        (self.0 >> property.number()) % 2 == 1
    }

    /// The same with a property that comes.
    pub fn with(self, property: Property) -> SeenNames
        ensures { result ≡ spec.seen_with self property }
    {
        SeenNames(self.0 | (1 << property.number()))
    }
}
