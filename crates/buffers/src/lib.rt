// 01, "Delivery": bytes and fields written into a lent buffer at a place; what is kept at the start of a hold; the rest of a piece.

#![tactic(auto)]

pub mod fields;
pub mod hold;
pub mod write;
