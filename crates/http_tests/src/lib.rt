//! Tests of HTTP: streams cut into requests, and what their parts say, over public calls alone.
#![tactic(auto)]

#[cfg(test)]
mod devices;
#[cfg(test)]
mod part_tests;
#[cfg(test)]
mod stream_tests;
