//! Who learns what a search asks for.

use std::alloc::Global;
use std::fmt;
use warg_hash::{AnyHash, PackageName};
use warg_log::Release;
use warg_plan::Content;

/// A way in which a learner `S` learns the logs of packages and contents.
///
/// It tells how the learner comes from one state to the next by what it was asked for and by the lesson that it learnt,
/// and in which state a refusal leaves it.
pub trait Learn<S> {
    ghost use Rattle.std.specs.Prelude.{◌≡◌, IfOk, IfErr};
    ghost use Rattle.warg_log.specs.Places.{release_views};
    ghost use Rattle.warg_plan.specs.Known.{with_content, with_log};
    ghost use Rattle.warg_plan.specs.View.{content_view};
    ghost use Rattle.warg_plan.specs.Walk.{Facts, Stop as Asked, NeedsContent, NeedsLog};

    /// Why nothing is learnt.
    type Refusal: fmt::Debug + fmt::Display + Drop;

    /// What is known of the learner.
    ghost Told: { Type 0 };

    ghost told: { S → Told };

    /// What it learns.
    ghost Lesson: { Type 0 };

    /// What a lesson adds to what is known.
    ghost teaches: { Facts → Lesson → Facts };

    /// Where it was asked for this, it may have come from one state to another by this lesson.
    ghost Learns: { Told → Asked → Lesson → Told → Type 0 };

    /// Where it was asked for this, it may have come from one state to another without learning it, for this reason.
    ghost Refuses: { Told → Asked → Self.Refusal → Told → Type 0 };

    /// The releases in the log of a package.
    fn learn_log(
        &self,
        alloc: Global,
        learner: &mut S,
        name: &PackageName,
    ) -> Result<Vec<Release>, Self::Refusal>
        ensures learnt { IfOk result (λ releases. (lesson : Lesson)
            × ((facts : Facts) → teaches facts lesson ≡ with_log facts name.now (release_views releases.items))
            × Learns (told learner.old) (NeedsLog name.now) lesson (told learner.new)) }
        ensures refused { IfErr result (λ e. Refuses (told learner.old) (NeedsLog name.now) e (told learner.new)) };

    /// The content of a digest, which is that of a release of the package.
    fn learn_content(
        &self,
        alloc: Global,
        learner: &mut S,
        name: &PackageName,
        digest: &AnyHash,
    ) -> Result<Content, Self::Refusal>
        ensures learnt { IfOk result (λ content. (lesson : Lesson)
            × ((facts : Facts) → teaches facts lesson ≡ with_content facts digest.now (content_view content))
            × Learns (told learner.old) (NeedsContent name.now digest.now) lesson (told learner.new)) }
        ensures refused { IfErr result (λ e.
            Refuses (told learner.old) (NeedsContent name.now digest.now) e (told learner.new)) };
}
