//! Tests of traces.

mod events;
mod filters;
mod opening;
mod recording;
mod timeouts;
