//! The line after a run of which the kernel refused reads past its cache.
ghost use Rattle.std.specs.Prelude.{◌↔◌, ◌≡◌, ◌≤◌, IfSome, IsNone, length};
ghost use Rattle.program_advice.specs.Lines.{IsOneLine, line_text};
ghost use Rattle.program_advice.specs.declared.cause.Cause.TheVariants.{Cached};

use crate::cause::Cause;
use crate::line::{Line, line_of};

/// The line after a run of which the kernel refused this many reads past its cache.
pub fn cached_line(program: &str, reads: u64) -> Option<Line>
    requires { length program.now ≤ 18 }
    ensures none { IsNone result ↔ reads ≡ 0 }
    ensures text { IfSome result (λ line. line.items ≡ line_text program.now (Cached reads)) }
    ensures line { IfSome result (λ line. IsOneLine line.items) }
{
    if reads == 0 {
        return None;
    }
    Some(line_of(program, Cause::Cached { reads }))
}
