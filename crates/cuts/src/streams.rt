//! What runs read from and write to.
pub use text_runs::streams::{Sink, Source};
