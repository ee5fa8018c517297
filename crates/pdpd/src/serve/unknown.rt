//! Variables of the environment that are named as settings are, and are none.
use crate::fault::OneLine;
use crate::serve::setting::is_setting;
use std::env::{Env, FillError};
use std::rt::HostRuntime;
use std::str;

/// How many bytes a variable may have, with its name, that is looked at.
const MAX_BYTES: usize = 4_096;

/// Tells of a variable, its name, `=` and its text, if it is named as settings are, and is none.
fn tell_if_unknown(rt: &HostRuntime, variable: &[u8]) {
    let Ok(variable) = str::from_utf8(variable) else {
        return;
    };
    let Some((text, _)) = variable.split_once('=') else {
        return;
    };
    if text.starts_with("PDPD_") && !is_setting(text) {
        let name = OneLine { text };
        let _ = eprintln!(rt; "pdpd: {name} is set, and is no setting: it isn't looked at");
    }
}

/// A line on standard error tells of each variable that is named as settings are, and is none.
pub fn tell_of_unknown(rt: &HostRuntime) {
    let mut room = [0; MAX_BYTES];
    for number in 0..usize::MAX {
        match rt.var_at(number, &mut room) {
            Ok(length) => tell_if_unknown(rt, &room[..length]),
            Err(FillError::TooLong) => {}
            Err(FillError::NotPresent) => return,
        }
    }
}
