//! That over a link which gives the replies of a session its plan is found. Each law is the contract of a function that
//! does nothing.

ghost use Rattle.std.specs.Prelude.{◌≡◌, ◌⊎◌, Bool, List};
ghost use Rattle.comp_shape.specs.Refusal.{IsRefused};
ghost use Rattle.comp_shape.specs.declared.error.ShapeError.{ShapeError as Unread};
ghost use Rattle.warg_log.specs.Rules.{Accepts};
ghost use Rattle.warg_exchange.specs.Requests.{Asker};
ghost use Rattle.warg_learn.specs.Recording.{Transcript, AreKept};
ghost use Rattle.warg_store.specs.Held.{Registry};
ghost use Rattle.warg_plan.specs.Walk.{Entry, Facts, Stop, nothing_known};
ghost use Rattle.warg_assemble.specs.Known.{Known};
ghost use Rattle.warg_assemble.specs.Parts.{Part, exchanges_in, IsPart, learnt};
ghost use Rattle.warg_assemble.specs.Session.{Wanted, Serves};
ghost use Rattle.warg_learn.specs.Search.{AreLearnt, Finds, IsSearchRefusal};
ghost use Rattle.warg_learn.specs.SearchError.{SearchError as Refusal};
ghost use Rattle.warg_learn.specs.Learnt.{IsLearnt};
ghost use Rattle.warg_learn.specs.Seen.{Seen};
ghost use Rattle.warg_learn.specs.Unlearnt.{IsUnlearnt};
ghost use Rattle.warg_learn.specs.declared.error.LearnError.{LearnError as Cause};
ghost use Rattle.warg_compose.specs.Read.{IsComponent};
ghost use Rattle.warg_error.specs.Plans.{search_refusal};
ghost use Rattle.warg_error.specs.declared.error.ClientError.TheVariants.{LinkFault as HasFailed, Memory as WantsMemory};
ghost use Rattle.warg_course.specs.Replies.{GivesReplies};
ghost use Rattle.warg_complete.specs.Sessions.{ProvesSession, IsFirstOf};
ghost use Rattle.warg_complete.specs.Refusals.{IsOwnSearchRefusal};
ghost use Rattle.warg_complete.specs.Undisturbed.{IsUndisturbed, IsUnreplied};

use comp_shape::laws::{one_shape, shapes_are_read};
use warg_api::Link;
use warg_course::laws::{
    downloading_replies_are_taken, given_replies_are_followed, proving_exchanges_are_asked,
    proving_replies_are_taken,
};

/// Over a link that gives the replies of a part which serves a stop of the walk, what is learnt at this stop is this
/// part.
pub fn one_part<L: Link>()
    ensures { (accepts : Accepts) (asker : Registry → Asker) (known : Known) (stop : Stop) (p q : Part)
        (begun now : Transcript L.Told)
        → Serves known stop p → Serves known stop q
        → IsPart accepts asker IsComponent known p → IsPart accepts asker IsComponent known q
        → AreKept L.Steps begun (exchanges_in p) now → GivesReplies L.Steps begun.link (exchanges_in q) → p ≡ q }
{
    proving_exchanges_are_asked();
    proving_replies_are_taken::<L>();
    downloading_replies_are_taken::<L>();
    one_shape();
}

/// Over a link that gives the replies of a session, what a search has learnt so far are the first parts of the session,
/// and what the link gives from then on proves the rest. What the search finds is the plan that the session finds, by
/// just its parts. Or it is refused for want of memory, or since the next part is not learnt, for what is no reply's
/// fault. And where nothing stands in its way the refusal is told as want of memory, or as a fault of the link, which
/// gave no reply.
pub fn proving_sessions_are_found<L: Link, D: Drop>()
    ensures learnt { (accepts : Accepts) (asker : Registry → Asker) (w : Wanted) (known : Known) (f : Facts)
        (parts done : List Part) (es : List Entry) (old now : Seen L.Told D)
        → ProvesSession L.Steps accepts asker w known f parts es old
        → AreLearnt learnt w (IsLearnt L.Steps IsComponent) f old done now
        → IsFirstOf L.Steps accepts asker w known f parts es done now }
    ensures found { (accepts : Accepts) (asker : Registry → Asker) (w : Wanted) (known : Known)
        (parts : List Part) (es other : List Entry) (old new : Seen L.Told D)
        → ProvesSession L.Steps accepts asker w known nothing_known parts es old
        → (found : Finds learnt w (IsLearnt L.Steps IsComponent) old new other)
        → (other ≡ es) × (found.parts ≡ parts) }
    ensures refused { (accepts : Accepts) (asker : Registry → Asker) (w : Wanted) (known : Known)
        (parts : List Part) (es : List Entry) (said : D → D → Bool → Bool) (e : Refusal (Cause Unread))
        (old new : Seen L.Told D)
        → ProvesSession L.Steps accepts asker w known nothing_known parts es old
        → IsSearchRefusal learnt w (IsLearnt L.Steps IsComponent)
        (IsUnlearnt L.Steps said (λ bytes error. IsRefused error bytes)) old new e
        → IsOwnSearchRefusal L.Steps w known parts old new e }
    ensures undisturbed { (accepts : Accepts) (asker : Registry → Asker) (w : Wanted) (known : Known)
        (parts : List Part) (es : List Entry) (said : D → D → Bool → Bool) (e : Refusal (Cause Unread))
        (old new : Seen L.Told D)
        → ProvesSession L.Steps accepts asker w known nothing_known parts es old → IsUndisturbed parts old new
        → IsSearchRefusal learnt w (IsLearnt L.Steps IsComponent)
        (IsUnlearnt L.Steps said (λ bytes error. IsRefused error bytes)) old new e
        → (search_refusal e ≡ WantsMemory)
        ⊎ ((search_refusal e ≡ HasFailed) × IsUnreplied parts old new L.Steps) }
{
    one_part::<L>();
    given_replies_are_followed::<L>();
    proving_exchanges_are_asked();
    proving_replies_are_taken::<L>();
    downloading_replies_are_taken::<L>();
    one_shape();
    shapes_are_read();
}
