//! What of the crates below those above take through this one.

pub use mq_manager::Manager;
pub use mq_manager::below::{
    Back, Core, Found, Hardened, Unreturned, are_distinct, batch_row, bind, standing, stock, unbind,
};
