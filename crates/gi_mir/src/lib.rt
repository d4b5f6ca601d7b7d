//! A function in Machine IR: its opcodes, operands, instructions, blocks and names.
#![tactic(auto)]

pub mod accepted;
pub mod block;
pub mod entry;
pub mod formed;
pub mod function;
pub mod instr;
pub mod instr_list;
pub mod instrs;
mod labels;
mod layout;
mod mentions;
pub mod module;
pub mod names;
pub mod opcode;
pub mod operand;
mod page;
mod place;
mod room;
pub mod routine;
pub mod row;
pub mod stage;
pub mod types;
pub mod typing;
