//! Tables: how their texts are read, how they are looked at, and how statements rewrite them.

mod deltas;
pub mod examples;
mod faults;
mod loading;
mod reading;
mod shown;
