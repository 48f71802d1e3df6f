//! What a C program's handle stands for: a box, and the memory that boxes come from.

pub mod box_memory;
pub mod parts;
pub mod slot;
