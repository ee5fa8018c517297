//! The keeper: a connection, and what is known of its store.
ghost use Rattle.std.specs.Prelude.{◌≡◌, true, IsTrue};
ghost use Rattle.sqlite.specs.Held.{state};
ghost use Rattle.xa_store.specs.Keeper.{are_only_ours};
ghost use Rattle.xa_store.specs.Sound.{IsKeepersStore};

pub(crate) mod health;
pub(crate) mod laws;
pub(crate) mod records;
pub(crate) mod tables;

use crate::keeper::health::Health;
use crate::keeper::tables::Tables;
use sqlite::{Alter, Connection};
use std::marker::Model;

/// A keeper of domains over the tables of a database. Each change is one transaction.
#[derive(Drop)]
pub struct SqlRecords<S: Alter> {
    /// The connection.
    conn: Connection<S>,
    /// Which tables its store had when it was opened.
    tables: Tables,
    /// What is known of its store.
    health: Health,
}

impl<S: Alter> Model for SqlRecords<S> {
    ghost use Rattle.xa_store.specs.Keeper.{IsKeeper, Keeper, are_only_ours, keeper_code};

    ghost Value = { Keeper S };

    ghost coded = { keeper_code S.code };

    ghost view = { λ r.
        record {
          conn = r.conn;
          had_only_our_tables = are_only_ours r.tables;
          is_open = r.health.is_open;
          faults = r.health.faults;
        } };

    ghost invariant = { λ r.
        IsKeeper S.Store
        (record {
          conn = r.conn;
          had_only_our_tables = are_only_ours r.tables;
          is_open = r.health.is_open;
          faults = r.health.faults;
        }) };
}

impl<S: Alter> SqlRecords<S> {
    /// A keeper over the connection, no call of which has failed.
    pub(crate) fn over(conn: Connection<S>, tables: Tables) -> SqlRecords<S>
        requires { IsTrue (are_only_ours tables) → IsTrue (state S.Store conn).is_open
            → IsKeepersStore (state S.Store conn) }
        ensures { result
            ≡ record { conn = conn; had_only_our_tables = are_only_ours tables; is_open = true; faults = 0 } }
    {
        SqlRecords {
            conn,
            tables,
            health: Health::fresh(),
        }
    }

    /// Whether its store had a keeper's tables and no others when it was opened. Only of such a keeper
    /// do the clauses of `Records` say what it holds.
    pub fn has_only_our_tables(&self) -> bool
        ensures { result ≡ self.now.had_only_our_tables }
    {
        self.tables.are_only_ours()
    }

    /// The connection that it was made over.
    pub fn into_connection(self) -> Connection<S>
        ensures { result ≡ self.conn }
    {
        self.conn
    }
}
