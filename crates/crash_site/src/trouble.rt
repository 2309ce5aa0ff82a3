//! What a site for real files keeps of a call that failed.
use crate::site::SiteCall;
use std::io;

/// Why a call failed: the call, and the system's error.
#[derive(Clone, Copy, Debug)]
pub struct SiteTrouble {
    pub call: SiteCall,
    pub error: io::Error,
}
