//! Specs of workers: the words of `--tx`, and the places that they name.
#![tactic(auto)]

mod cuts;
mod draft;
mod fault;
mod numbers;
mod spec;
mod tx;

pub use draft::address_in;
pub use fault::SpecFault;
pub use numbers::number_in;
pub use spec::Spec;
pub use tx::expand_tx;
