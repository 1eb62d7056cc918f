//! That a session with honest registries is a session. The law is the contract of a function that does nothing.

ghost use Rattle.std.specs.Prelude.{List};
ghost use Rattle.warg_log.specs.Rules.{Accepts};
ghost use Rattle.warg_exchange.specs.Requests.{Asker};
ghost use Rattle.warg_store.specs.Held.{Registry};
ghost use Rattle.warg_plan.specs.Walk.{Facts};
ghost use Rattle.warg_assemble.specs.Known.{Known};
ghost use Rattle.warg_assemble.specs.Parts.{Part};
ghost use Rattle.warg_assemble.specs.Session.{Wanted, IsSession};
ghost use Rattle.warg_ledger.specs.Registry.{Registry as Ledger, IsRegistry};
ghost use Rattle.warg_honest.specs.HonestSession.{IsHonestSession};

use warg_assemble::ContentReader;
use warg_ledger::laws::honest_updates_prove;

/// A session with honest registries is a session: its updates prove their logs.
pub fn honest_sessions_are_sessions<C: ContentReader>()
    ensures { (accepts : Accepts) (asker : Registry → Asker) (world : Registry → Ledger) (w : Wanted) (known : Known)
        (f : Facts) (parts : List Part)
        → ((r : Registry) → IsRegistry accepts (world r))
        → IsHonestSession accepts asker world C.Reads w known f parts
        → IsSession accepts asker C.Reads w known f parts }
{
    honest_updates_prove();
}
