//! Laws over definitions alone.

ghost use Rattle.std.specs.Prelude.{◌≡◌, ◌++◌, ℕ, List, decimal, option_map, IfSome};
ghost use Rattle.std.specs.List.Sorted.{IsPermutation};
ghost use Rattle.warg_hash.specs.Hash.{operator_log_id};
ghost use Rattle.warg_log.specs.Rules.{Accepts};
ghost use Rattle.warg_info.specs.Kept.{Kept, last_index, last_token};
ghost use Rattle.warg_update.specs.Proved.{IsSigned};
ghost use Rattle.warg_ledger.specs.Registry.{IsRegistry, log_below};
ghost use Rattle.warg_model.specs.Held.{Held, AcceptsSigned, HasNoClash, IsModel, registry_of, signatures_of};
ghost use Rattle.warg_model.specs.Signatures.{accepted_of};

use warg_log::laws::{fronts_are_lawful, lawful_record_by_record};

/// A request that names the last record of a beginning of a log names the record's place, in decimal.
pub fn tokens_are_places()
    ensures { (h : Held) (n : ℕ) (id : List ℕ) (before rest : List Kept)
        → log_below (registry_of h) n id ≡ before ++ rest
        → last_token before ≡ option_map decimal (last_index before) }
{}

/// By whatever accepts the key's signature of each text that a registry signed, it is an honest registry, but for a clash, and
/// its last checkpoint is signed.
pub fn what_is_signed_is_accepted()
    ensures honest { (accepts : Accepts) (h : Held) → IsModel h → HasNoClash (registry_of h)
        → AcceptsSigned accepts h → IsRegistry accepts (registry_of h) }
    ensures signed { (accepts : Accepts) (h : Held) → IsModel h → AcceptsSigned accepts h
        → IfSome h.latest (λ c.
        IsSigned accepts (log_below (registry_of h) c.contents.log_length operator_log_id) c) }
{
    lawful_record_by_record();
    fronts_are_lawful();
}

/// A list that has a registry's signatures among others, in whatever order, accepts them.
pub fn what_is_listed_is_accepted()
    ensures { (h : Held) (before after listed : List (List ℕ × List ℕ × List ℕ))
        → IsPermutation (before ++ (signatures_of h ++ after)) listed → AcceptsSigned (accepted_of listed) h }
{}
