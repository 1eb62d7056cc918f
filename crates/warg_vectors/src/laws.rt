//! Laws over definitions alone.

ghost use Rattle.std.specs.Prelude.{◌≡◌, ◌<◌, ◌^◌, ℕ, List, map, bytes_eq, Contains, Option, Some, IfSome, IsUtf8};
ghost use Rattle.std.specs.List.{AllByRecursion, IsDistinct};
ghost use Rattle.serde_json.specs.Data.{Data};
ghost use Rattle.warg_hash.specs.Hash.{digest_of, hash_text, operator_log_id, package_log_id};
ghost use Rattle.warg_log.specs.Rules.{Accepts};
ghost use Rattle.warg_exchange.specs.Requests.{Asker, checkpoint_request, consistency_request, inclusion_request, logs_request, plain_get, post_request, sources_request};
ghost use Rattle.warg_exchange.specs.declared.checkpoint.SignedCheckpoint.{SignedCheckpoint};
ghost use Rattle.warg_exchange.specs.declared.exchange.Reply.{Reply};
ghost use Rattle.warg_info.specs.Kept.{Kept, last_token};
ghost use Rattle.warg_page.specs.Logs.{Logs as PageLogs, tokens_of};
ghost use Rattle.warg_reply.specs.Order.{ascending, NameThemselves};
ghost use Rattle.warg_ledger.specs.Honest.{GivesCheckpoint, GivesPage, HaveRecords, IsStoredOf};
ghost use Rattle.warg_ledger.specs.Registry.{Registry, log_below};
ghost use Rattle.warg_model.specs.Held.{Held, AcceptsSigned, HasNoClash, IsModel, registry_of};
ghost use Rattle.warg_model.specs.Pages.{NameLast, StartsWith};
ghost use Rattle.warg_vectors.specs.Answers.{IsAnswerOf, IsPageReply};
ghost use Rattle.warg_vectors.specs.Asked.{Checkpoint, Consistency, Content, Inclusion, Logs, OfRegistry, Sources, home, content_url, registry_of_request, asked_by};

use warg_model::laws::what_is_signed_is_accepted;

/// A client's requests are read as what they ask, and of the registry that they are for: those without a body, and those
/// whose body is JSON. Of a page the logs are read in the order of their ids' texts.
pub fn requests_are_read()
    ensures checkpoint { (a : Asker) → a.base ≡ home → asked_by (checkpoint_request a) ≡ OfRegistry Checkpoint }
    ensures of_registry { (a : Asker) → registry_of_request (checkpoint_request a) ≡ a.registry }
    ensures sources { (a : Asker) (digest : List ℕ) → a.base ≡ home → digest_of (hash_text digest) ≡ Some digest
        → asked_by (sources_request a digest) ≡ Sources digest }
    ensures content { (digest : List ℕ) → digest_of (hash_text digest) ≡ Some digest
        → asked_by (plain_get (content_url digest)) ≡ Content digest }
    ensures posted { (a : Asker) (path : List ℕ) (body : Data)
        → registry_of_request (post_request a path body) ≡ a.registry }
    ensures page { (a : Asker) (n : ℕ) (operator : Option (List ℕ)) (packages : List (List ℕ × Option (List ℕ)))
        → a.base ≡ home → n < 2 ^ 64 → NameThemselves packages
        → IfSome operator IsUtf8 → AllByRecursion (λ p. IfSome p.1 IsUtf8) packages
        → asked_by (logs_request a n operator packages) ≡ OfRegistry (Logs n operator (ascending packages)) }
    ensures inclusion { (a : Asker) (n : ℕ) (leafs : List ℕ) → a.base ≡ home → n < 2 ^ 64
        → AllByRecursion (λ l. l < 2 ^ 64) leafs
        → asked_by (inclusion_request a n leafs) ≡ OfRegistry (Inclusion n leafs) }
    ensures consistency { (a : Asker) (old new : ℕ) → a.base ≡ home → old < 2 ^ 64 → new < 2 ^ 64
        → asked_by (consistency_request a old new) ≡ OfRegistry (Consistency old new) }
{}

/// The tokens of logs that begin a registry's name their last records, also in the order in which they are read.
pub fn tokens_in_order_name_logs()
    ensures { (w : Registry) (n : ℕ) (logs : PageLogs)
        → StartsWith (log_below w n operator_log_id) logs.operator
        → ((name : List ℕ) (log : List Kept) → Contains logs.packages (name, log)
        → StartsWith (log_below w n (package_log_id name)) log)
        → NameThemselves (tokens_of logs.packages)
        → IsDistinct bytes_eq (map (λ t. t.0) (tokens_of logs.packages))
        → NameLast w n (last_token logs.operator) (ascending (tokens_of logs.packages)) logs }
{}

/// The checkpoint of a registry is an honest one, by whatever accepts what the registry signed; and so is the page of logs
/// that begin its own and have a record each, but for a clash: they are never refused.
pub fn replies_are_honest()
    ensures checkpoint { (accepts : Accepts) (h : Held) (c : SignedCheckpoint) (stored : Option SignedCheckpoint) (reply : Reply)
        → IsModel h → AcceptsSigned accepts h → h.latest ≡ Some c
        → IsStoredOf (registry_of h) stored c.contents.log_length
        → IsAnswerOf (Some h) Checkpoint reply → GivesCheckpoint accepts (registry_of h) stored reply }
    ensures page { (w : Registry) (n : ℕ) (operator : Option (List ℕ)) (packages : List (List ℕ × Option (List ℕ)))
        (logs : PageLogs) (reply : Reply)
        → HasNoClash w → NameLast w n operator packages logs → HaveRecords w n logs
        → IsPageReply w n operator packages reply → GivesPage w n logs reply }
{
    what_is_signed_is_accepted();
}
