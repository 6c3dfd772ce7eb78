// The demands on the table, and requests A7 to A9, as theorems of the exported calls, each the promise of a function that does nothing, so that none can be taken away unnoticed.
#![tactic(auto)]

ghost use Rattle.std.specs.Prelude.{ℕ, ◌≡◌, true, List};
ghost use Rattle.table_history.specs.History.{Call};
ghost use Rattle.table_index_history.specs.Calls.{byte_calls};
ghost use Rattle.demands_tables.specs.Tables.{LikeADictionary, LastStored, NoGroup, ZeroBytes, RefusedKeeps, OwnerRefused, OthersKept, ShownOwn, FullExactly, TwelveThere};
ghost use Rattle.demands_tables.specs.Isolation.{NonInterference, SlotsCounted, ThirteenFail};
ghost use Rattle.demands_tables.specs.Indexes.{AgreementIs, OneEntry, AgreementKept, WrittenAgrees, FindsLikeTheWalk, ProbesCounted, FindReads};

// Demands 1 and 2 of the table for each owner, over any list of calls by both.
pub fn tables()
    ensures dictionary { LikeADictionary }
    ensures last { LastStored }
    ensures group { NoGroup }
    ensures zero { ZeroBytes }
    ensures refused { RefusedKeeps }
{}

// Request A7: no call by one owner shows, replaces or removes a slot of the other, and 12 slots are always there for the other.
pub fn owners()
    ensures none { OwnerRefused }
    ensures kept { OthersKept }
    ensures shown { ShownOwn }
    ensures full { FullExactly }
    ensures twelve { TwelveThere }
{}

// Request A8: what one owner gets does not depend on the other's calls while it asks to hold at most twelve keys, and the slots used are the keys stored and not removed since.
pub fn isolation()
    ensures unseen { NonInterference }
    ensures counted { (cs : List Call) → byte_calls cs ≡ true → SlotsCounted cs }
    ensures thirteen { ThirteenFail }
{}

// Request A9: when table and index agree, that they stay so, and that find then shows what the walk shows.
pub fn agreement()
    ensures is { (t x : List ℕ) → AgreementIs t x }
    ensures one { OneEntry }
    ensures kept { AgreementKept }
    ensures written { WrittenAgrees }
    ensures walk { FindsLikeTheWalk }
{}

// Request A9: what find reads of a table and an index of any bytes.
pub fn reading()
    ensures probes { (t x : List ℕ) (owner sin group : ℕ) → ProbesCounted t x owner sin group }
    ensures reads { FindReads }
{}
