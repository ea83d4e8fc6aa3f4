//! Tests of types and calls that use no threads: of `tiny_http_wire`, of what a client reads, and of the readers of
//! case and scene files and the reports about them. Calls on bytes are tested by the rows of the program `test_calls`.
#![tactic(auto)]

#[cfg(test)]
mod answer_head;
#[cfg(test)]
mod ascii;
#[cfg(test)]
mod case_file;
#[cfg(test)]
mod chunked;
#[cfg(test)]
mod common;
#[cfg(test)]
mod device;
#[cfg(test)]
mod encoder;
#[cfg(test)]
mod ending;
#[cfg(test)]
mod response;
#[cfg(test)]
mod same;
#[cfg(test)]
mod scene_reading;
#[cfg(test)]
mod scene_reporting;
#[cfg(test)]
mod served;
#[cfg(test)]
mod streamed;
