//! Where a component stands in the tree of an object.

ghost use Rattle.std.specs.Prelude.{◌≡◌, ◌∷◌, ℕ, List, Some, true};
ghost use Rattle.cal_base.specs.declared.line.Node.{Node as Tree};
ghost use Rattle.cal_model.specs.declared.object.Object.{Object as Whole};
ghost use Rattle.filter_eval.specs.Places.{alarms_in, is_child, node_at, place_of};

/// Where a component stands, as far as ranges ask: rows belong to the components in the outermost
/// one, and their alarms stand directly in those.
#[derive(Clone, Copy)]
pub enum Place {
    /// It is the outermost one.
    Outermost,
    /// It stands in the outermost one, at this place among the components there.
    Child(usize),
    /// It stands in such a one, behind so many alarms with a TRIGGER there.
    Within { child: usize, alarms: usize },
    /// It stands deeper.
    Deeper,
}

impl Place {
    /// Whether the component stands in the outermost one: alarms in it are numbered.
    pub fn is_child(self) -> bool
        ensures { result ≡ is_child self }
    {
        matches!(self, Place::Child(_))
    }

    /// Where the component stands that has this place among those in a component, and so many alarms
    /// with a TRIGGER before it, if they are numbered.
    pub fn inner(self, place: usize, alarms: usize) -> Place
        ensures { (object : Whole) (path : List ℕ) (node : Tree) → place_of object path ≡ self → node_at object.tree path ≡ Some node → (is_child self ≡ true → alarms ≡ alarms_in node place) → result ≡ place_of object (place ∷ path) }
    {
        match self {
            Place::Outermost => Place::Child(place),
            Place::Child(child) => Place::Within { child, alarms },
            Place::Within { .. } | Place::Deeper => Place::Deeper,
        }
    }
}
