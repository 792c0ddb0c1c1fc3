//! What runs of text need of a font before it is embedded: the advances of its glyphs as a PDF has them, and which have ink.
//!
//! ```text
//! let metrics = text_metrics(alloc, data, 0, &coordinates, &Limits::default())?;
//! show_run(alloc, metrics.font(), Direction::LeftToRight, 12_000, &mut pairs, &items)?;
//! ```
#![tactic(auto)]

mod call;
mod columns;
mod ink;
mod metrics;

pub use call::text_metrics;
pub use columns::column_metrics;
pub use metrics::TextMetrics;
