//! From the files of a store to its files, by connections that are served at once.
ghost use Rattle.std.specs.Prelude.{◌≡◌, is_some};
ghost use Rattle.sqlite.specs.WalFiles.{image_at};
ghost use Rattle.pdpd.specs.Beginning.{known_text};
ghost use Rattle.pdpd.specs.declared.fault.Fault.TheVariants.{Place};
ghost use Rattle.pdpd.specs.declared.serve.served.Ended.TheVariants.{Unbegun};
ghost use Rattle.pdpd.specs.Ending.{HasServedAtOnce};
ghost use Rattle.pdpd.specs.Listening.{IsNoPlace};

use crate::command_line::ListenCommand;
use crate::listen::listen;
use crate::serve::served::Ended;
use crate::store::{FileRecords, close_records};
use sqlite::{FileFrom, Start};
use std::fs::OpenFile;
use std::io::{self, Read};
use std::rt::HostRuntime;
use xa_server::Clock;

/// Serves connections at once, and then closes the store's files. `token` is the token file as it was opened.
pub fn listen_and_close<S: Start, F: OpenFile + Read + Drop, C: Clock>(
    rt: &HostRuntime,
    listening: &ListenCommand<'_>,
    token: io::Result<F>,
    start: S,
    clock: &mut C,
) -> Ended<FileFrom<S>, FileRecords<S>>
    ensures served { HasServedAtOnce (image_at S.Start) (known_text F.remaining token)
        (is_some listening.now.changes) (C.told clock.old) (C.told clock.new) result }
    ensures place { IsNoPlace listening.now.address → result ≡ Unbegun Place }
{
    let left = match listen(rt, listening, token, start, clock) {
        Ok(left) => left,
        Err(fault) => return Ended::Unbegun(fault),
    };
    if let Err(fault) = left.result {
        return Ended::Broken(left.front, fault);
    }
    match close_records(left.front.into_server().into_records()) {
        Ok(closed) => Ended::Closed(closed),
        Err(store) => Ended::Unclosed(store),
    }
}
