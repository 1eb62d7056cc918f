//! Laws over definitions alone.

ghost use Rattle.std.specs.Prelude.{◌≡◌, ◌++◌, [], List};
ghost use Rattle.warg_record.specs.Record.{Kind};
ghost use Rattle.warg_log.specs.Rules.{Accepts};
ghost use Rattle.warg_exchange.specs.declared.logs.PublishedRecord.{PublishedRecord as Published};
ghost use Rattle.warg_info.specs.Kept.{Kept, Grows};
ghost use Rattle.warg_info.specs.Info.{IsLawfulLog};
ghost use Rattle.warg_info.specs.Faults.{FirstFault};
ghost use Rattle.warg_info.specs.declared.error.TakeError.{TakeError};
ghost use Rattle.warg_info.specs.declared.error.TakeError.TheVariants.{Memory as WantsMemory};

use warg_record::laws::one_envelope;

/// A log grows by no records to itself, and by some records and then by others as by both.
pub fn growth_goes_on()
    ensures none { (kind : Kind) (log : List Kept) → Grows kind log [] log }
    ensures more { (kind : Kind) (old mid new : List Kept) (ps qs : List Published)
        → Grows kind old ps mid → Grows kind mid qs new → Grows kind old (ps ++ qs) new }
{}

/// A log grows in one way, and what it grows by has no fault but want of memory where it is then lawful.
pub fn growth_is_taken()
    ensures one { (kind : Kind) (old new other : List Kept) (ps : List Published)
        → Grows kind old ps new → Grows kind old ps other → new ≡ other }
    ensures apart { (kind : Kind) (old new : List Kept) (ps qs : List Published)
        → Grows kind old (ps ++ qs) new → (mid : List Kept) × Grows kind old ps mid × Grows kind mid qs new }
    ensures never_refused { (kind : Kind) (accepts : Accepts) (old new : List Kept) (ps : List Published)
        (e : TakeError) (kept : List Kept) → Grows kind old ps new → IsLawfulLog kind accepts new
        → FirstFault e kind accepts old ps kept → e ≡ WantsMemory }
{
    one_envelope();
}
