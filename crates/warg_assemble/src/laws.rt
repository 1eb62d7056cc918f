//! What is known of sessions. Each law is the contract of a function that does nothing; as lemmas they stand in
//! `specs/SessionLaws`.

ghost use Rattle.std.specs.Prelude.{◌≡◌, ◌++◌, ◌∷◌, [], List, Ok};
ghost use Rattle.std.specs.List.{flat_map};
ghost use Rattle.warg_log.specs.Rules.{Accepts};
ghost use Rattle.warg_exchange.specs.declared.exchange.Exchange.{Exchange as Said};
ghost use Rattle.warg_exchange.specs.Requests.{Asker};
ghost use Rattle.warg_store.specs.Held.{Registry};
ghost use Rattle.warg_plan.specs.Walk.{Entry, Facts, nothing_known};
ghost use Rattle.warg_assemble.specs.Known.{Known};
ghost use Rattle.warg_assemble.specs.Parts.{Part, exchanges_in, known_by, learnt_by, IsPart};
ghost use Rattle.warg_assemble.specs.Session.{Wanted, walked, IsWanted, AreOnce, IsSession, IsPlanOf};

use crate::reader::ContentReader;

/// What the walk finds over what a session taught is a plan over the logs that the session's exchanges prove.
pub fn a_session_finds_a_plan<C: ContentReader>()
    ensures { (accepts : Accepts) (asker : Registry → Asker) (known : Known) (w : Wanted)
        (parts : List Part) (xs later : List Said) (es : List Entry)
        → xs ≡ flat_map exchanges_in parts ++ later
        → IsSession accepts asker C.Reads w known nothing_known parts
        → walked w (learnt_by nothing_known parts) ≡ Ok es
        → IsPlanOf accepts asker C.Reads known xs w es }
{}

/// A session updates each package once.
pub fn a_session_updates_each_package_once<C: ContentReader>()
    ensures { (accepts : Accepts) (asker : Registry → Asker) (known : Known) (w : Wanted)
        (f : Facts) (parts : List Part)
        → IsSession accepts asker C.Reads w known f parts
        → AreOnce parts }
{}

/// A session goes on with each part that the walk asks for next.
pub fn a_session_goes_on<C: ContentReader>()
    ensures { (accepts : Accepts) (asker : Registry → Asker) (known : Known) (w : Wanted)
        (f : Facts) (parts : List Part) (p : Part)
        → IsSession accepts asker C.Reads w known f parts
        → IsWanted w (known_by known parts) (learnt_by f parts) p
        → IsPart accepts asker C.Reads (known_by known parts) p
        → IsSession accepts asker C.Reads w known f (parts ++ p ∷ []) }
{}
