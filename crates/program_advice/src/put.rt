//! The put of a line besides the message.

use crate::line::Line;
use rescue_console::console::{Channel, Console};
use rescue_console::system::StdConsole;

/// Puts a line before or after the message, if there is one and all before it was put on standard error.
pub fn put_line(console: &mut StdConsole, line: Option<Line>) {
    if console.trouble(Channel::Err).is_some() {
        return;
    }
    if let Some(line) = line {
        // A console that fails changes no status.
        let _put = console.put(Channel::Err, &line);
    }
}
