//! Tests of devices, lines and sessions, over public calls alone.
#![tactic(auto)]

#[cfg(test)]
mod adapter_tests;
#[cfg(test)]
mod device_tests;
#[cfg(test)]
mod devices;
#[cfg(test)]
mod session_tests;
