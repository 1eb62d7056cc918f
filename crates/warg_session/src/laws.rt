//! Laws over definitions alone.

ghost use Rattle.std.specs.Prelude.{◌≡◌, true, List};
ghost use Rattle.warg_exchange.specs.declared.exchange.Exchange.{Exchange as Said};
ghost use Rattle.warg_api.specs.Link.{Exchanges};
ghost use Rattle.warg_session.specs.Recording.{Transcript, IsRecorded, AreKept};

use warg_api::Link;

/// Where no reply was lost, the exchanges that a recording kept on the way from one state to another are exactly those
/// by which it came there, and its link was asked just these.
pub fn what_is_kept_was_said<L: Link>()
    ensures { (old new : Transcript L.Told) (xs : List Said)
        → Exchanges (IsRecorded L.Steps) old xs new → new.is_whole ≡ true → AreKept L.Steps old xs new }
{}
