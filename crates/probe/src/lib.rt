// The service probe: the smallest input that betrays a stuck line or pin.
#![tactic(auto)]

mod service;

pub use service::probe;
