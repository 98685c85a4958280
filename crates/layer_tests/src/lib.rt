//! Tests of layers through their public calls: the window, the arbiter, the engine, the handler to embed, the lanes
//! between threads with their board, and workers' reports with the collector. They stand apart, so that no layer is
//! proved a second time for them.
#![tactic(auto)]

#[cfg(test)]
mod arbiter;
#[cfg(test)]
mod engine;
#[cfg(test)]
mod following;
#[cfg(test)]
mod lanes;
#[cfg(test)]
mod receiver;
#[cfg(test)]
mod reports;
#[cfg(test)]
mod uncounted;
#[cfg(test)]
mod window;
