//! Volumes: the place of one, and the calls that are made on it.

pub mod volume_calls;
pub mod volume_memory;
pub mod volume_place;
