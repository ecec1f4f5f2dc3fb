//! A reader or writer whose failures are counted, only for contracts.
pub use text_runs::counted::Counted;
