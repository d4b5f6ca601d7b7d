//! The top call of gisel: the words of a command line and an input in, the text that the passes leave out.
#![tactic(auto)]

mod stop;
mod top;

pub use stop::say;
pub use top::{gisel, refuse_word, write_text};
