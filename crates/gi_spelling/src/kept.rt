//! What becomes of the tokens of a line of which some are passed over.

/// What follows a token: so many that are passed over, or all up to a comma or a closing bracket.
#[derive(Clone, Copy, Debug, PartialEq, Eq)]
pub enum Next {
    Past(usize),
    PastOrigin,
}

/// What becomes of a token: whether it is kept, and what follows.
#[derive(Clone, Copy, Debug, PartialEq, Eq)]
pub struct Turn {
    pub keeps: bool,
    pub next: Next,
}
