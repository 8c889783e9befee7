//! Tests of what the built program does not do: values that cannot be written, and calls of two sides of a link; and of the
//! news that a gateway makes of lists of messages.
#![tactic(auto)]

#[cfg(test)]
mod gateway;
#[cfg(test)]
mod pair;
#[cfg(test)]
mod told;
#[cfg(test)]
mod value;
