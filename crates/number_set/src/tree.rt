//! A tree of flags in one list: the root is node 1, and node `j` has the children `2j` and `2j + 1`.
//!
//! A node is set exactly where one of its children is; the leaves are the second half of the list.
ghost use Rattle.std.specs.Prelude.{◌≡◌, ℕ, ◌+◌, ◌<◌, ◌≤◌, ◌||◌, true, length, drop, if◌then◌else◌};
ghost use Rattle.number_set.specs.Sets.{has};
ghost use Rattle.number_set.specs.Trees.{doubled, AreSums, AreSumsBut};

/// Whether one of a node's children is set.
fn either(nodes: &[bool], at: usize) -> bool
    requires { at + at + 1 < length nodes.now }
    ensures { result ≡ (has nodes.now (at + at) || has nodes.now (at + at + 1)) }
{
    nodes[2 * at] || nodes[2 * at + 1]
}

/// Makes the nodes above a leaf agree with it again. Takes no memory.
pub(crate) fn sum_up(nodes: &mut [bool], half: usize, leaf: usize)
    requires even { length nodes.old ≡ half + half }
    requires leaf { leaf < half + half }
    requires sums { AreSumsBut nodes.old leaf }
    ensures sums { AreSums nodes.new }
    ensures leaves { drop half nodes.new ≡ drop half nodes.old }
{
    let mut below = leaf;
    while below > 1 {
        let at = below / 2;
        let some = either(nodes, at);
        nodes[at] = some;
        below = at;
    }
}

/// Sets each node above the leaves by its children. Takes no memory.
pub(crate) fn sum_all(nodes: &mut [bool], half: usize)
    requires even { length nodes.old ≡ half + half }
    ensures sums { AreSums nodes.new }
    ensures leaves { drop half nodes.new ≡ drop half nodes.old }
{
    let mut next = half;
    while next > 1 {
        let at = next - 1;
        let some = either(nodes, at);
        nodes[at] = some;
        next = at;
    }
}

/// The first leaf that is set, where the root is.
pub(crate) fn first_leaf(nodes: &[bool], height: u64) -> usize
    requires size { length nodes.now ≡ doubled height + doubled height }
    requires sums { AreSums nodes.now }
    requires some { has nodes.now 1 ≡ true }
    ensures low { doubled height ≤ result }
    ensures high { result < doubled height + doubled height }
    ensures set { has nodes.now result ≡ true }
    ensures first { (p : ℕ) → has nodes.now p ≡ true → doubled height ≤ p → result ≤ p }
{
    let mut at = 1;
    let mut left = height;
    while left > 0 {
        at = first_child(nodes, at);
        left -= 1;
    }
    at
}

/// The first child that is set, or the second child.
fn first_child(nodes: &[bool], at: usize) -> usize
    requires { at + at + 1 < length nodes.now }
    ensures { result ≡ (if has nodes.now (at + at) then at + at else at + at + 1) }
{
    if nodes[2 * at] { 2 * at } else { 2 * at + 1 }
}
