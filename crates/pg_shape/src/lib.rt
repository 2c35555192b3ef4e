//! Reading terms and formulas from tokens.
#![tactic(auto)]

mod fault;
mod frame;
mod frames;
mod heading;
mod reader;
mod shape;
mod stack;
mod state;
mod symbol;

pub use fault::ShapeFault;
pub use reader::shape_of;
pub use shape::{
    APPLICATION, ATOM, Binders, Bracket, Group, NEGATION, Op, Quantifier, Shape, Word,
};
