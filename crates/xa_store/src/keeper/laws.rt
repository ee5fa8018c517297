//! Laws of a keeper that was opened: it is sound while its store is open, its tables open again, and so does
//! what a crash has left of them; and of one that was being opened. A law does nothing when it runs.
ghost use Rattle.std.specs.Prelude.{◌≡◌, Ok, IsTrue};
ghost use Rattle.sqlite.specs.Held.{state};
ghost use Rattle.xa_store.specs.Keeper.{IsSound};
ghost use Rattle.xa_store.specs.Opened.{opened};
ghost use Rattle.xa_store.specs.Reopening.{OpensOnceMore, Reopens};
ghost use Rattle.xa_store.specs.Sound.{IsSoundStore};
ghost use Rattle.xa_store.specs.declared.schema.version.SchemaVersion.TheVariants.{Schema2};

use crate::keeper::SqlRecords;
use crate::schema::shape::is_schema_2;
use sqlite::{Alter, Connection};

impl<S: Alter> SqlRecords<S> {
    /// Law: while its store is open, the store of a keeper that had a keeper's tables and no others is
    /// sound; and so is the keeper, if it can go on.
    pub fn stays_sound_while_open(&self)
        ensures store { IsTrue self.now.had_only_our_tables → IsTrue (state S.Store self.now.conn).is_open
            → IsSoundStore (state S.Store self.now.conn) }
        ensures keeper { IsTrue self.now.had_only_our_tables → IsTrue (state S.Store self.now.conn).is_open
            → IsTrue self.now.is_open → IsSound S.Store self.now }
    {
        // For the proof: what the invariant says of the fields.
        let _tables = self.tables;
    }

    /// Law: the tables of a keeper whose store is sound open again.
    pub fn opens_again(&self)
        ensures { IsSoundStore (state S.Store self.now.conn)
            → opened Schema2 (state S.Store self.now.conn).now.trees ≡ Ok tt }
    {}

    /// Law: a connection that was just opened over what a crash of this keeper has left rests on a
    /// keeper's tables, which `open` finds sound, and they mean one of the maps that the crash may leave,
    /// if it doesn't leave just any. So `open` gives that map, by a keeper that is sound, or it tells
    /// want of memory or a failure of the store.
    pub fn reopens<T: Alter>(&self, conn: &Connection<T>)
        ensures { Reopens (state S.Store self.now.conn) (state T.Store conn.now) }
    {
        // For the proof: an open store holds a database, and its schema is schema 2 or isn't.
        let _is_schema_2 = is_schema_2(conn.schema());
    }

    /// Law: a connection that was just opened over what a stop inside `open` has left (its clause `leaves`)
    /// has the tables that were there before, or all that `open` makes of them. So `open` gives the same
    /// domains by it.
    pub fn opens_once_more<T: Alter>(
        old: &Connection<S>,
        left: &Connection<S>,
        conn: &Connection<T>,
    )
        ensures { OpensOnceMore
            (state S.Store old.now) (state S.Store left.now) (state T.Store conn.now) }
    {
        // For the proof: an open store holds a database.
        let _before = old.schema();
        let _after = conn.schema();
    }
}
