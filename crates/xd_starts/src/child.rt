// The child of a link.

/// The child of a link: the number of the link at the starter, and what was asked of it.
#[derive(Clone, Copy, Debug)]
pub struct Child {
    pub link: u32,
    pub is_killed: bool,
    pub is_reaped: bool,
}
