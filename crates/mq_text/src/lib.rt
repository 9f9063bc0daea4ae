//! Bytes as lines, pieces and numbers: what the readers of commands, rules and scenarios share.
#![tactic(auto)]

pub mod below;
mod lines;
mod numbers;
mod piece;
mod quoting;

pub use lines::{behind, cut, next_line};
pub use numbers::{NumberFault, number, signed};
pub use piece::{Piece, PieceFault, PieceKind, pieces};
pub use quoting::{quoted_len, unquoted, upper};
