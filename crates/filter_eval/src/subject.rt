//! What is matched, and where in its tree a component stands.

use crate::dates::Dates;
use crate::links::Links;
use crate::moments::AlarmMoments;
use crate::place::Place;
use crate::ready::ReadyNode;
use cal_base::{List, Node};
use cal_model::{Object, Row, ZoneTable};

/// An object, rows of it, and the zone in which floating times are read.
#[derive(Clone, Copy)]
pub struct Subject<'a, 'l, 'm, 'd, 't> {
    pub object: &'a Object,
    pub rows: &'a [Row],
    pub zone: &'a ZoneTable,
    /// From each row to the next one of its component, where that was made ready.
    pub row_links: Option<&'l Links>,
    /// From each component to the next one that is the same child of the outermost one, likewise.
    pub component_links: Option<&'l Links>,
    /// The moments from which the alarms of each component count, likewise.
    pub moments: Option<&'m List<AlarmMoments>>,
    /// How its dates are read, where that was made ready for all tests of it.
    pub dates: Option<&'d Dates<'a>>,
    /// Its texts, where they were made ready for all tests of it.
    pub texts: Option<&'t ReadyNode<'a>>,
}

/// A component of the tree.
#[derive(Clone, Copy)]
pub struct Spot<'a, 't> {
    pub node: &'a Node,
    pub place: Place,
    /// Whether it is a VTIMEZONE or stands in one.
    pub in_timezone: bool,
    /// Its texts, where they were made ready.
    pub texts: Option<&'t ReadyNode<'a>>,
}
