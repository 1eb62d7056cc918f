//! What is known of what an update writes. As lemmas the laws stand in `specs/WriteLaws`.

ghost use Rattle.std.specs.Prelude.{Option};
ghost use Rattle.warg_record.specs.Record.{Operator, Package};
ghost use Rattle.warg_log.specs.Rules.{Accepts};
ghost use Rattle.warg_info.specs.Info.{IsLawfulLog};
ghost use Rattle.warg_store.specs.Held.{Held, Tells};
ghost use Rattle.warg_assemble.specs.Known.{Known};
ghost use Rattle.warg_assemble.specs.Parts.{Update, Updated, known_after};
ghost use Rattle.warg_fetch.specs.Stored.{IsOwn, IsOwnStore, KnowsRegistries};
ghost use Rattle.warg_fetch.specs.Writes.{HoldsFront, with_writes, writes_of};

/// By a store that holds what an update writes, just what the update teaches is known besides.
pub fn what_is_kept_is_known()
    ensures { (known : Known) (old new : Option Held) (u : Update) (before : KnowsRegistries old known)
        → Tells new (with_writes before.held (writes_of u)) → KnowsRegistries new (known_after known (Updated u)) }
{}

/// A store that its client alone has filled is so still once it holds a front of what an update writes, where the logs
/// of the update are lawful.
pub fn what_is_kept_is_own()
    ensures { (accepts : Accepts) (told : Option Held) (held : Held) (u : Update) → IsOwn accepts held
        → IsLawfulLog Operator accepts u.operator → IsLawfulLog Package accepts u.log
        → HoldsFront told held (writes_of u) → IsOwnStore accepts told }
{}
