//! Bodies compared with results that are written out: cases that no stream leads to.

mod bodies;
mod calls;
mod counts;
mod decimals;
mod fit;
mod greatest;
mod ids;
mod reported;
mod stored;
