//! Tests of cases that scenes can't reach: requests over memory whose reader is interrupted or that many threads
//! answer, the times at which a connection's responses are sent, listeners and the halves of connections, buffered
//! readers and writers, queues and counters shared by threads, and dates from a fixed clock.
#![tactic(auto)]

#[cfg(test)]
mod asking;
#[cfg(test)]
mod bodies;
#[cfg(test)]
mod corked;
#[cfg(test)]
mod dates;
#[cfg(test)]
mod entering;
#[cfg(test)]
mod fixture;
#[cfg(test)]
mod halves;
#[cfg(test)]
mod headcount;
#[cfg(test)]
mod leaving;
#[cfg(test)]
mod memory_fixture;
#[cfg(test)]
mod messages_queue;
#[cfg(test)]
mod roster;
#[cfg(test)]
mod same;
#[cfg(test)]
mod storm;
