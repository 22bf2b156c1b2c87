//! What a report shows of an object (RFC 4791, 9.6).

use crate::row::Range;
use cal_base::{List, Name};

/// A property to be shown (RFC 4791, 9.6.4).
#[derive(Drop)]
pub struct PropPick {
    pub name: Name,
    /// Whether it is shown without its value.
    pub no_value: bool,
}

/// A component to be shown, and what of it (RFC 4791, 9.6.1).
#[derive(Drop)]
pub struct CompPick {
    pub name: Name,
    /// Whether all its properties are shown.
    pub all_props: bool,
    pub props: List<PropPick>,
    /// Whether all its components are shown.
    pub all_comps: bool,
    pub comps: List<CompPick>,
}

/// How recurrence is shown.
#[derive(Clone, Copy, PartialEq, Eq)]
pub enum Recur {
    /// As stored.
    Whole,
    /// Each instance in the range by itself (RFC 4791, 9.6.5).
    Expand(Range),
    /// With those overrides alone that bear on the range (RFC 4791, 9.6.6).
    Limit(Range),
}

/// What a report shows of each object.
#[derive(Drop)]
pub struct Selection {
    /// The parts; none for all.
    pub comp: Option<CompPick>,
    pub recur: Recur,
    /// The range that FREEBUSY periods have to meet (RFC 4791, 9.6.7).
    pub busy: Option<Range>,
}
