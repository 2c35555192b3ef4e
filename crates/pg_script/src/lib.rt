//! How the text of a script falls into blocks, items and the parts of moves.
#![tactic(auto)]

mod block;
mod expression;
mod fault;
mod form;
mod head;
mod hint;
mod item;
mod laws;
mod mark;
mod script;
mod span;

pub use fault::ScriptFault;
pub use form::read_expression;
pub use item::{Expr, Form, HintItem, Item, MoveItem, Piece, RwRule, Script};
pub use laws::{expression_law, hint_law, move_law};
pub use script::{read_items, read_script};
