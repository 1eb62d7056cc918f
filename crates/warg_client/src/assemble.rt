//! Components, assembled of the plans of texts.

ghost use Rattle.std.specs.Prelude.{◌≡◌, ◌⊎◌, Some, None, IfOk, IfErr, OnErr};
ghost use Rattle.compose_config.specs.View.{settings_of as plan_settings};
ghost use Rattle.warg_plan.specs.View.{plan_view};
ghost use Rattle.warg_plan.specs.declared.plan.Plan.{Plan as Found};
ghost use Rattle.warg_client.specs.declared.client.Assembly.{Assembly as Made};
ghost use Rattle.warg_assemble.specs.Known.{Known};
ghost use Rattle.warg_assemble.specs.Parts.{learnt};
ghost use Rattle.warg_learn.specs.Stored.{IsOwnStore};
ghost use Rattle.warg_learn.specs.Search.{Finds};
ghost use Rattle.warg_learn.specs.Learnt.{IsLearnt};
ghost use Rattle.warg_learn.specs.Seen.{IsKnown, Telling, tells};
ghost use Rattle.warg_compose.specs.Linked.{IsPlanLinked};
ghost use Rattle.warg_compose.specs.Read.{IsComponent};
ghost use Rattle.warg_complete.specs.Undisturbed.{IsUnreplied};
ghost use Rattle.warg_complete.specs.ClientError.TheVariants.{LinkFault as HasFailed, Memory as WantsMemory};
ghost use Rattle.warg_client.specs.Assembled.{IsAssembleFault, IsPlanOfText, IsSearchRefused, LeavesWhatIsAllowed, beginning, wanted};
ghost use Rattle.warg_client.specs.Complete.{IsValidCall};
ghost use Rattle.warg_client.specs.Shown.{assembly_of, plan_of, registry_of, seen_by, settings_of, verifier_of};

use crate::client::{Assembly, Client};
use compose_config::Config;
use std::alloc::Global;
use warg_api::Link;
use warg_complete::laws::proving_sessions_are_found;
use warg_complete::{ClientError, plan_text};
use warg_compose::compose_plan;
use warg_compose::laws::{linkable_plans_are_linked, plans_over_components_are_wired};
use warg_hint::Decide;
use warg_learn::{Updates, search_plan};
use warg_log::Verifier;
use warg_plan::Plan;
use warg_store::{ContentStorage, NamespaceMapStorage, RegistryStorage};

impl<
    L: Link,
    R: RegistryStorage,
    C: ContentStorage,
    N: NamespaceMapStorage,
    V: Verifier,
    D: Decide,
> Client<L, R, C, N, V, D> {
    /// Begins a call of `assemble`: nothing was assembled last.
    fn begin(&mut self, alloc: Global)
        ensures begins { (tell : Telling L R C N V L.Told) → seen_by tell self.new
            ≡ beginning (settings_of self.old) (seen_by tell self.old) }
        ensures settings { settings_of self.new ≡ settings_of self.old }
        ensures no_plan { plan_of self.new ≡ None }
    {
        self.restart(alloc);
        self.last = None;
    }

    /// The plan of a text's settings.
    fn find_plan(&mut self, alloc: Global, config: &Config) -> Result<Plan, ClientError>
        ensures finds { IfOk result (λ plan. Finds learnt (wanted (plan_settings config.now))
            (IsLearnt L.Steps IsComponent)
            (seen_by (tells V.good L.told L.faults R.told R.faults C.told C.faults N.told N.faults) self.old)
            (seen_by (tells V.good L.told L.faults R.told R.faults C.told C.faults N.told N.faults) self.new)
            (plan_view plan)) }
        ensures refused { IfErr result (λ e. IsSearchRefused L.Steps
            (seen_by (tells V.good L.told L.faults R.told R.faults C.told C.faults N.told N.faults) self.old)
            (seen_by (tells V.good L.told L.faults R.told R.faults C.told C.faults N.told N.faults) self.new)
            D.said e (plan_settings config.now)) }
        ensures settings { settings_of self.new ≡ settings_of self.old }
        ensures plan { plan_of self.new ≡ plan_of self.old }
    {
        Ok(search_plan(alloc, &Updates, &mut self.learner, config)?)
    }

    /// The component that the plan of a text makes.
    ///
    /// The text is read first. Then its plan is searched: each package is updated at its first need, under the registry
    /// that has it, and kept with what the update proves; of the log that is proved a release is chosen; and its content is
    /// loaded from the store, or downloaded and kept. In the end the plan is linked. The plan is `last_plan` from then on,
    /// its lock `last_lock`, and what it leaves open `last_left`; after a refusal there is none.
    ///
    /// The first fault is answered. `NotBuilt` tells that a hint at another registry would be followed or reported.
    pub fn assemble(&mut self, alloc: Global, text: &str) -> Result<Vec<u8>, ClientError>
        ensures planned { IfOk result (λ _. (plan : Found) × (plan_of self.new ≡ Some plan)
            × IsPlanOfText L.Steps
            (beginning (settings_of self.old) (seen_by (tells V.good L.told L.faults R.told R.faults C.told C.faults
            N.told N.faults) self.old))
            (seen_by (tells V.good L.told L.faults R.told R.faults C.told C.faults N.told N.faults) self.new)
            text.now (plan_view plan)) }
        ensures linked { IfOk result (λ bytes. (made : Made) × (assembly_of self.new ≡ Some made)
            × IsPlanLinked (plan_view made.plan) made.lock.left.items made.lock.bytes.items bytes.items) }
        ensures allowed { IfOk result (λ _. (plan : Found) × (plan_of self.new ≡ Some plan)
            × LeavesWhatIsAllowed text.now (plan_view plan)) }
        ensures no_plan { OnErr result (plan_of self.new ≡ None) }
        ensures cause { IfErr result (λ e. IsAssembleFault L.Steps
            (beginning (settings_of self.old) (seen_by (tells V.good L.told L.faults R.told R.faults C.told C.faults
            N.told N.faults) self.old))
            (seen_by (tells V.good L.told L.faults R.told R.faults C.told C.faults N.told N.faults) self.new)
            D.said e text.now) }
        // Where nothing stands in the way, a component is assembled, memory runs out, or the link has given no reply,
        // which is told.
        ensures complete { IfErr result (λ e.
            (valid : IsValidCall L.Steps
            (beginning (settings_of self.old) (seen_by (tells V.good L.told L.faults R.told R.faults C.told C.faults
            N.told N.faults) self.old))
            (seen_by (tells V.good L.told L.faults R.told R.faults C.told C.faults N.told N.faults) self.new) text.now)
            → (e ≡ WantsMemory)
            ⊎ ((e ≡ HasFailed)
            × IsUnreplied valid.parts
            (beginning (settings_of self.old) (seen_by (tells V.good L.told L.faults R.told R.faults C.told C.faults
            N.told N.faults) self.old))
            (seen_by (tells V.good L.told L.faults R.told R.faults C.told C.faults N.told N.faults) self.new)
            L.Steps)) }
        ensures own { (known : Known)
            → IsKnown (beginning (settings_of self.old) (seen_by (tells V.good L.told L.faults R.told R.faults C.told
            C.faults N.told N.faults) self.old)) known
            → IsOwnStore (V.good (verifier_of self.old)) (R.told (registry_of self.new)) }
        ensures same_settings { settings_of self.new ≡ settings_of self.old }
    {
        proving_sessions_are_found::<L, D>();
        linkable_plans_are_linked();
        plans_over_components_are_wired();
        self.begin(alloc);
        let config = plan_text(alloc, text)?;
        let plan = self.find_plan(alloc, &config)?;
        let linked = compose_plan(alloc, &plan, config.disallow_imports)?;
        self.last = Some(Assembly {
            plan,
            lock: linked.lock,
        });
        Ok(linked.bytes)
    }
}
