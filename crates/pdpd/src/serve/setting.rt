//! The settings that the environment gives by its variables, each a number.
ghost use Rattle.std.specs.Prelude.{◌≡◌, IfErr, option_map};
ghost use Rattle.pdpd.specs.Fault.{IsOfSetting};
ghost use Rattle.pdpd.specs.Setting.{default_of, most_of, value_of};

use crate::fault::Fault;
use std::env::{self, VarError};
use xa_value::number_up_to;

/// The limit of work for one decision request if PDPD_WORK isn't set: at most a quarter of a second, in which
/// others wait. The dearest honest ask measured takes 3,500,000.
const DEFAULT_WORK: usize = 150_000_000;

/// How many bytes the body of a response may have if PDPD_REPLY isn't set: 16 MiB. The limit of work
/// alone leaves room for hundreds of megabytes.
const DEFAULT_REPLY: usize = 16_777_216;

/// How many bytes of policies may be read for one decision request if PDPD_READING isn't set. To read them
/// takes some 0.3 seconds, too.
const DEFAULT_READING: usize = 16_000_000;

/// How many bytes of memory cached views may take if PDPD_VIEWS isn't set: 256 MiB. The view of a domain
/// with as many bytes of policies as may be read takes some half of it, at 8 bytes for each.
const DEFAULT_VIEWS: usize = 268_435_456;

/// For how many seconds a connection may give nothing, or take nothing, if PDPD_IDLE isn't set. One is
/// served at a time, so a silent one would stop everybody.
const DEFAULT_IDLE: usize = 30;

/// For how many seconds a message may come from its first byte on if PDPD_MESSAGE isn't set.
const DEFAULT_MESSAGE: usize = 10;

/// Whether a new file has sums if PDPD_SUMS isn't set: it has. By them a changed bit of a file that nobody
/// has open is refused; without them a policy may be served that nobody wrote.
const DEFAULT_SUMS: usize = 1;

/// All settings that are numbers.
const NUMBERS: [Setting; 7] = [
    Setting::Work,
    Setting::Reply,
    Setting::Reading,
    Setting::Views,
    Setting::Idle,
    Setting::Message,
    Setting::Sums,
];

/// The name of the variable that says how the program is told to end.
pub const END: &str = "PDPD_END";

/// Whether a command looks at the variable of that name.
pub fn is_setting(name: &str) -> bool {
    name == END || NUMBERS.iter().any(|setting| setting.variable() == name)
}

/// A setting that the environment gives.
#[derive(Clone, Copy)]
pub enum Setting {
    /// The limit of work for one decision request; 0 for none.
    Work,
    /// How many bytes the body of a response may have; 0 for any number.
    Reply,
    /// How many bytes of policies may be read for one decision request; 0 for any number.
    Reading,
    /// How many bytes of memory cached views of domains may take; with 0 none is cached.
    Views,
    /// For how many seconds a connection may give nothing, or take nothing; 0 for ever.
    Idle,
    /// For how many seconds a message may come from its first byte until it is whole; 0 for ever.
    Message,
    /// 1 if a new file of a store has sums, else 0.
    Sums,
}

impl Setting {
    /// The name of its variable.
    fn variable(self) -> &'static str {
        match self {
            Setting::Work => "PDPD_WORK",
            Setting::Reply => "PDPD_REPLY",
            Setting::Reading => "PDPD_READING",
            Setting::Views => "PDPD_VIEWS",
            Setting::Idle => "PDPD_IDLE",
            Setting::Message => "PDPD_MESSAGE",
            Setting::Sums => "PDPD_SUMS",
        }
    }

    /// What to do if its variable is set to no number.
    pub fn advice(self) -> &'static str {
        match self {
            Setting::Work => "PDPD_WORK is to be a number of units of work, or 0 for no limit",
            Setting::Reply => "PDPD_REPLY is to be a number of bytes, or 0 for no limit",
            Setting::Reading => {
                "PDPD_READING is to be a number of bytes of policies, or 0 for no limit"
            }
            Setting::Views => "PDPD_VIEWS is to be a number of bytes of memory, or 0 for none",
            Setting::Idle => "PDPD_IDLE is to be a number of seconds, or 0 for no limit",
            Setting::Message => "PDPD_MESSAGE is to be a number of seconds, or 0 for no limit",
            Setting::Sums => "PDPD_SUMS is to be 1, or 0 for a new file without sums",
        }
    }

    /// What the setting is if its variable isn't set.
    fn default_value(self) -> usize
        ensures { result ≡ default_of self }
    {
        match self {
            Setting::Work => DEFAULT_WORK,
            Setting::Reply => DEFAULT_REPLY,
            Setting::Reading => DEFAULT_READING,
            Setting::Views => DEFAULT_VIEWS,
            Setting::Idle => DEFAULT_IDLE,
            Setting::Message => DEFAULT_MESSAGE,
            Setting::Sums => DEFAULT_SUMS,
        }
    }

    /// The greatest number to which its variable may be set.
    fn most(self) -> usize
        ensures { result ≡ most_of self }
    {
        match self {
            Setting::Sums => 1,
            Setting::Work | Setting::Reply | Setting::Reading | Setting::Views => usize::MAX,
            Setting::Idle | Setting::Message => usize::MAX,
        }
    }

    /// What the setting is, by the text to which its variable is set, if it is. None exactly if that is no
    /// number that it may have.
    fn value_of(self, set: Option<&str>) -> Option<usize>
        ensures { result ≡ value_of self (option_map (λ text. text.now) set.entry) }
    {
        match set {
            None => Some(self.default_value()),
            Some(text) => number_up_to(self.most(), text.as_bytes()),
        }
    }

    /// What the setting is, by the environment.
    pub fn value(self, rt: &HostRuntime) -> Result<usize, Fault>
        ensures { IfErr result (IsOfSetting self) }
    {
        let value = match env::var(rt, self.variable()) {
            Ok(set) => self.value_of(Some(set.as_str())),
            Err(VarError::NotPresent) => self.value_of(None),
            Err(VarError::NotUnicode) => None,
            Err(VarError::OutOfMemory) => return Err(Fault::Memory),
        };
        value.ok_or(Fault::Setting(self))
    }
}
