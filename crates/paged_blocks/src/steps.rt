//! How much a search looks at.

pub use block_pages::steps::Steps;
