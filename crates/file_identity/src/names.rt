//! Names of files: the folder that holds one.
use std::path::Path;

/// The name of the folder that holds a name.
pub fn folder_of(name: &str) -> &str {
    match Path::new(name).parent() {
        None => "/",
        Some(parent) => {
            let text = parent.as_str();
            if text.is_empty() { "." } else { text }
        }
    }
}
