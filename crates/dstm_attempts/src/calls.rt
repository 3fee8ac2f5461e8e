// The calls on an attempt that the callers of both engines answer, and what each call leaves, in the words of both.
ghost use Rattle.std.specs.Prelude.{◌≡◌, ◌≢◌, ◌<◌, List, None, true, false, IfErr, IfOk, IfSome, OnOk};
ghost use Rattle.dstm_model.specs.declared.value.Val.{Val};
ghost use Rattle.dstm_tables.specs.Callers.{begun};
ghost use Rattle.dstm_tables.specs.declared.tables.Caller.{Caller};
ghost use Rattle.dstm_attempts.specs.Attempts.{AddsNothing, Begins, BeginsNone, Finds, Flags, IsLost, IsNotOpened, IsOpened, IsQuit, IsSpent, IsStill, Keeps, LeavesLawful, LooksChanged, LooksOnce, LooksSame, LooksSpent, MayBegin, Opens, Puts, Refuses, StoodTogether, TakesUnder, is_under_way, objects_of};
ghost use Rattle.dstm_attempts.specs.Waiting.{MarksNoMore, RenewsNothing};
ghost use Rattle.dstm_attempts.specs.declared.error.Look.TheVariants as look;

use crate::error::{Look, NotOpened, Spent};
use dstm_model::{Law, Val};

/// A caller of one engine, and `T` its table. A flag tells whether an attempt is under way.
pub(crate) trait Calls<L: Law, T> {
    /// What is known of a table.
    ghost Place: { Type 0 };

    /// The table of the caller.
    ghost home: { Self → Self.Place };

    /// What is known of this table.
    ghost place: { T → Self.Place };

    /// The caller, as one of either engine.
    ghost caller: { Self → Caller L };

    /// Begins an attempt.
    fn begin(&mut self, going: &mut bool, table: &T) -> Result<(), Spent>
        requires table { home self.old ≡ place table.now }
        ensures begins { OnOk result (Begins L.holds (caller self.old) (caller self.new)) }
        ensures unbegun { IfErr result (λ _. BeginsNone L.holds (caller self.old) (caller self.new)) }
        ensures spent { IfErr result (λ _. IsSpent (caller self.new)) }
        ensures none { IfErr result (λ _. begun (caller self.new) ≡ begun (caller self.old)) }
        ensures quit { IfErr result (λ _. IsQuit (caller self.new)) }
        ensures nothing { AddsNothing (caller self.old) (caller self.new) }
        ensures renews { RenewsNothing (caller self.old) (caller self.new) }
        ensures flags { Flags going.new (caller self.new) };

    /// Opens an object for reading, and answers its value.
    fn read(&mut self, going: &mut bool, table: &T, object: u32) -> Result<Val, NotOpened>
        requires table { home self.old ≡ place table.now }
        requires flags { Flags going.old (caller self.old) }
        ensures keeps { Keeps (caller self.old) (caller self.new) }
        ensures stops { IfErr result (IsNotOpened L.holds false object (caller self.old) (caller self.new)) }
        ensures refuses { Refuses (caller self.old) object result }
        ensures finds { IfOk result (Finds L.holds (caller self.old) (caller self.new) object) }
        ensures may { OnOk result ((map : List Val) × MayBegin L.holds (caller self.new) map) }
        ensures once { OnOk result (Opens L.holds false object (caller self.old) (caller self.new)) }
        ensures together { OnOk result (StoodTogether L.holds (caller self.new)) }
        ensures flags { Flags going.new (caller self.new) }
        ensures going { OnOk result (going.new ≡ true) }
        ensures unmarked { OnOk result (MarksNoMore (caller self.old) (caller self.new)) };

    /// Opens an object for reading and writing, and answers its value.
    fn write(&mut self, going: &mut bool, table: &T, object: u32) -> Result<Val, NotOpened>
        requires table { home self.old ≡ place table.now }
        requires flags { Flags going.old (caller self.old) }
        ensures keeps { Keeps (caller self.old) (caller self.new) }
        ensures stops { IfErr result (IsNotOpened L.holds true object (caller self.old) (caller self.new)) }
        ensures refuses { Refuses (caller self.old) object result }
        ensures finds { IfOk result (Finds L.holds (caller self.old) (caller self.new) object) }
        ensures may { OnOk result ((map : List Val) × MayBegin L.holds (caller self.new) map) }
        ensures once { OnOk result (Opens L.holds true object (caller self.old) (caller self.new)) }
        ensures together { OnOk result (StoodTogether L.holds (caller self.new)) }
        ensures flags { Flags going.new (caller self.new) }
        ensures going { OnOk result (going.new ≡ true) }
        ensures exists { OnOk result (object < objects_of (caller self.new)) }
        ensures opened { OnOk result (IsOpened (caller self.new) object) };

    /// Sets the value of an object that is open for writing.
    fn set(&mut self, table: &T, object: u32, value: Val)
        requires table { home self.old ≡ place table.now }
        requires flags { Flags true (caller self.old) }
        requires exists { object < objects_of (caller self.old) }
        requires opened { IsOpened (caller self.old) object }
        ensures keeps { Keeps (caller self.old) (caller self.new) }
        ensures puts { Puts L.holds (caller self.old) (caller self.new) object value }
        ensures still { IsStill (caller self.old) (caller self.new) }
        ensures opened { IsOpened (caller self.new) object }
        ensures flags { Flags true (caller self.new) };

    /// Commits the attempt, and answers the number under which it has taken effect.
    fn commit(&mut self, going: &mut bool, table: &T) -> Option<u64>
        requires table { home self.old ≡ place table.now }
        requires flags { Flags going.old (caller self.old) }
        requires lawful { LeavesLawful L.holds (caller self.old) }
        ensures takes { IfSome result (TakesUnder L.holds (caller self.old) (caller self.new)) }
        ensures keeps { result ≡ None → Keeps (caller self.old) (caller self.new) }
        ensures lost { result ≡ None → IsLost L.holds (caller self.old) (caller self.new) }
        ensures home { home self.new ≡ home self.old }
        ensures flags { Flags going.new (caller self.new) };

    /// One look whether something has changed since an attempt with this clock began.
    fn look(&mut self, going: &mut bool, table: &T, since: u64) -> Look
        requires table { home self.old ≡ place table.now }
        requires flags { Flags going.old (caller self.old) }
        ensures same { result ≡ look.Same → LooksSame since (caller self.old) (caller self.new) }
        ensures changed { result ≡ look.Changed → LooksChanged L.holds since (caller self.old) (caller self.new) }
        ensures spent { result ≡ look.Spent → LooksSpent (caller self.old) (caller self.new) }
        ensures once { result ≢ look.Spent → LooksOnce L.holds (caller self.old) (caller self.new) }
        ensures unbegun { result ≡ look.Spent → BeginsNone L.holds (caller self.old) (caller self.new) }
        ensures live { result ≡ look.Same → is_under_way (caller self.new) ≡ true }
        ensures nothing { AddsNothing (caller self.old) (caller self.new) }
        ensures flags { Flags going.new (caller self.new) };

    /// Whether an attempt is under way, and has such an object.
    fn may_open(&self, going: bool, table: &T, object: u32) -> Result<(), NotOpened>
        requires table { home self.now ≡ place table.now }
        requires flags { Flags going (caller self.now) }
        ensures going { OnOk result ((going ≡ true) × (is_under_way (caller self.now) ≡ true)) }
        ensures exists { OnOk result (object < objects_of (caller self.now)) }
        ensures unread { IfErr result (IsNotOpened L.holds false object (caller self.now) (caller self.now)) }
        ensures unwritten { IfErr result (IsNotOpened L.holds true object (caller self.now) (caller self.now)) }
        ensures refuses { Refuses (caller self.now) object result };
}
