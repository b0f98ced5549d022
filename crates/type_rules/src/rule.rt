/// A rule that a statement may break, in the order in which they are asked.
#[derive(Clone, Copy, Debug, PartialEq, Eq)]
pub enum Rule {
    /// Each name is that of one thing.
    Name,
    /// What is asked of a group is one value for it.
    Group,
    /// Each place gets the kind that it wants.
    Kind,
    /// No number may need more bits than there are.
    Wide,
}
