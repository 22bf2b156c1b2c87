//! What a query looks for (RFC 4791, 9.7).

use crate::row::Range;
use cal_base::{List, Name, Octets};

/// How texts are compared (RFC 4790; RFC 4791, 7.5).
#[derive(Clone, Copy, PartialEq, Eq)]
pub enum Collation {
    /// i;ascii-casemap: without ASCII case.
    AsciiCasemap,
    /// i;octet: octet for octet.
    Octet,
}

/// A test of a text: whether it has another one within it (RFC 4791, 9.7.5).
#[derive(Drop)]
pub struct TextMatch {
    /// What to look for.
    pub text: Octets,
    pub collation: Collation,
    /// Whether the test passes where the text is not found.
    pub negate: bool,
}

/// What is asked of a parameter (RFC 4791, 9.7.3).
#[derive(Drop)]
pub enum ParamTest {
    /// It is not there.
    Absent,
    /// It is there.
    Defined,
    /// It is there and its value passes.
    Text(TextMatch),
}

/// A test of the parameters of one name.
#[derive(Drop)]
pub struct ParamFilter {
    pub name: Name,
    pub test: ParamTest,
}

/// What is asked of a property (RFC 4791, 9.7.2).
#[derive(Drop)]
pub enum PropTest {
    /// It is not there.
    Absent,
    /// It is there.
    Defined,
    /// Its moment lies in the range.
    Time(Range),
    /// Its value passes.
    Text(TextMatch),
}

/// A test of the properties of one name.
#[derive(Drop)]
pub struct PropFilter {
    pub name: Name,
    pub test: PropTest,
    /// What is asked of its parameters beside.
    pub params: List<ParamFilter>,
}

/// A test of the components of one name (RFC 4791, 9.7.1).
#[derive(Drop)]
pub struct CompFilter {
    pub name: Name,
    /// Whether it asks that there is none, and nothing else.
    pub absent: bool,
    /// A range that an instance overlaps.
    pub time: Option<Range>,
    pub props: List<PropFilter>,
    pub comps: List<CompFilter>,
}

/// The filter of a query.
#[derive(Drop)]
pub struct Filter {
    /// The test of the outermost component.
    pub top: CompFilter,
}
