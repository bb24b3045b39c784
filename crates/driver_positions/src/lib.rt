//! Where cites stand among the others: their properties before anything is rendered, and in the
//! final order.
#![tactic(auto)]

pub mod final_order;
pub mod first;
