//! That what a page brings is taken. Each law is the contract of a function that does nothing.

ghost use Rattle.std.specs.Prelude.{◌≡◌};
ghost use Rattle.warg_exchange.specs.Views.{Page};
ghost use Rattle.warg_log.specs.Rules.{Accepts};
ghost use Rattle.warg_page.specs.Logs.{Logs, Brings, EachIsLawful};
ghost use Rattle.warg_page.specs.PageFaults.{IsPageFault};
ghost use Rattle.warg_page.specs.declared.page.PageError.{PageError};
ghost use Rattle.warg_page.specs.declared.page.PageError.TheVariants.{Memory as WantsMemory};

use warg_info::laws::growth_is_taken;
use warg_log::laws::fronts_are_lawful;

/// A page leaves logs in one way. Where each log that it leaves is lawful, so was each before it, and the page has no
/// fault but want of memory.
pub fn brought_pages_are_taken()
    ensures one { (before after other : Logs) (page : Page)
        → Brings before page after → Brings before page other → after ≡ other }
    ensures lawful { (accepts : Accepts) (before after : Logs) (page : Page)
        → Brings before page after → EachIsLawful accepts after → EachIsLawful accepts before }
    ensures never_refused { (accepts : Accepts) (before after : Logs) (page : Page) (e : PageError)
        → Brings before page after → EachIsLawful accepts after → IsPageFault e accepts before page → e ≡ WantsMemory }
{
    growth_is_taken();
    fronts_are_lawful();
}
