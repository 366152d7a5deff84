// The truth tables of drawings, and the service from-drawing.
#![tactic(auto)]

mod numbers;
mod paths;
mod service;
mod tables;
mod writing;

pub use service::from_drawing;
