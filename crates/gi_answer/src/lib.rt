//! What gisel answers to a text of Machine IR: the text that the passes leave, or why the text is refused.
#![tactic(auto)]

mod answering;
mod begins;
mod checks;
mod example;
mod keys;
mod laws;
mod legality;
mod messages;
mod normal_form;
mod same;
mod select;
mod shapes;
mod unrun;
mod unselected;
mod validity;

pub use answering::answer;
pub use begins::passing_module_is_good;
pub use example::{example_is_compiled, example_is_legalized};
pub use laws::{
    normal_form_is_there, output_is_legal, output_is_one, printed_text_is_read_back,
    selected_function_refines, selected_text_is_one, valid_function_is_selectable,
};
pub use messages::Refused;
pub use normal_form::normal_form_is_one;
pub use same::{any_spelled_modules_refine, same_functions_run_alike};
