//! What an operator has set for `pdpd listen`.
ghost use Rattle.std.specs.Prelude.{◌≡◌, IfErr, option_map};
ghost use Rattle.std.specs.Duration.{as_nanos};
ghost use Rattle.pdpd.specs.running.Listening.{IsOfEnd, IsOfListenSettings};
ghost use Rattle.pdpd.specs.Setting.{nanos_of};

use crate::fault::Fault;
use crate::serve::setting::{END, Setting};
use crate::serve::settings::Settings;
use std::env::{self, VarError};
use std::rt::HostRuntime;
use std::time::Duration;
use xa_reactor::Limits;

/// What an operator has set for `pdpd listen`.
#[derive(Clone, Copy)]
pub struct ListenSettings {
    /// What `pdpd serve` has, too.
    pub server: Settings,
    /// For how many seconds a message may come from its first byte until it is whole; 0 for ever.
    pub message: usize,
    /// Whether the program ends, in good order, when its standard input ends.
    pub ends_with_input: bool,
}

/// A limit in seconds; 0 is none.
fn limit_of(seconds: usize) -> Option<Duration>
    ensures { option_map as_nanos result ≡ nanos_of seconds }
{
    match seconds {
        0 => None,
        _ => Some(Duration::from_secs(seconds as u64)),
    }
}

/// Whether the program ends when its standard input ends: if PDPD_END is `input`.
fn ends_with_input(rt: &HostRuntime) -> Result<bool, Fault>
    ensures { IfErr result IsOfEnd }
{
    match env::var(rt, END) {
        Ok(set) if set.as_str() == "input" => Ok(true),
        Ok(_) | Err(VarError::NotUnicode) => Err(Fault::End),
        Err(VarError::NotPresent) => Ok(false),
        Err(VarError::OutOfMemory) => Err(Fault::Memory),
    }
}

impl ListenSettings {
    /// What the environment sets, or the fault of the first variable that is set to what it may not be.
    pub fn read(rt: &HostRuntime) -> Result<ListenSettings, Fault>
        ensures { IfErr result IsOfListenSettings }
    {
        Ok(ListenSettings {
            server: Settings::read(rt)?,
            message: Setting::Message.value(rt)?,
            ends_with_input: ends_with_input(rt)?,
        })
    }

    /// For how long a connection is waited for.
    pub fn limits(&self) -> Limits
        ensures idle { option_map as_nanos result.idle ≡ nanos_of self.now.server.idle }
        ensures message { option_map as_nanos result.message ≡ nanos_of self.now.message }
    {
        Limits {
            idle: limit_of(self.server.idle),
            message: limit_of(self.message),
        }
    }
}
