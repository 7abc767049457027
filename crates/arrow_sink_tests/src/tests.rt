mod refusals;
mod sinks;
