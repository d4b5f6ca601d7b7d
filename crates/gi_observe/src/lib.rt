//! The passes over a function, and the changes that they make.
#![tactic(auto)]

mod change;
mod editor;
mod laws;
mod observer;
mod pass;

pub use change::{Change, ChangeKind};
pub use editor::Editor;
pub use laws::replays_compose;
pub use observer::{ChangeObserver, Journal, Silent};
pub use pass::Pass;
