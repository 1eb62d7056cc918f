//! A plan, assembled over any link by a client that has kept nothing.

ghost use Rattle.std.specs.Prelude.{◌≡◌, ◌⊎◌, ◌↔◌, true, IfOk, IfErr};
ghost use Rattle.warg_plan.specs.View.{plan_view};
ghost use Rattle.warg_client.specs.Assembled.{beginning};
ghost use Rattle.warg_client.specs.Shown.{settings_of};
ghost use Rattle.warg_client.specs.ClientError.TheVariants.{Memory as WantsMemory};
ghost use Rattle.warg_replay.specs.Anew.{HaveNotFailed, IsAnewFault, IsAnewOver, IsAssembledAnew, accepts_listed, shown};

use std::alloc::Global;
use warg_api::Link;
use warg_client::{Client, ClientError, Lock, Settings};
use warg_hint::AlwaysDecide;
use warg_log::ListedVerifier;
use warg_plan::Plan;
use warg_store::{MemoryContent, MemoryNamespaces, MemoryRegistry};

/// How many pages of logs may be asked for.
const PAGE_LIMIT: u64 = 10_000;

/// A client over a link, which keeps what it learns in memory.
type AnewClient<L> = Client<
    L,
    MemoryRegistry,
    MemoryContent,
    MemoryNamespaces,
    ListedVerifier,
    AlwaysDecide,
>;

/// A plan, its lock, and the component that it is linked into.
#[derive(Debug, Drop)]
pub struct Assembled {
    /// The plan.
    pub plan: Plan,
    /// Its lock.
    pub lock: Lock,
    /// The component.
    pub bytes: Vec<u8>,
}

/// A client that has kept nothing, over a link.
fn client_over<L: Link>(
    alloc: Global,
    link: L,
    checked: ListedVerifier,
) -> Result<AnewClient<L>, ClientError>
    ensures anew { IfOk result (λ client. IsAnewOver (accepts_listed checked) (L.told link)
        (beginning (settings_of client) (shown L.told L.faults client))) }
    ensures short { IfErr result (λ e. e ≡ WantsMemory) }
{
    let made = Client::new(
        alloc,
        "https://home.test/",
        link,
        MemoryRegistry::new(alloc),
        MemoryContent::new(alloc),
        MemoryNamespaces::new(alloc),
        checked,
        AlwaysDecide { answer: true },
        None,
        Settings {
            ignore_federation_hints: false,
            disable_auto_accept_federation_hints: false,
            disable_auto_package_init: false,
            disable_interactive: false,
            round_limit: PAGE_LIMIT,
            polls: 0,
        },
    );
    match made {
        Ok(client) => Ok(client),
        // The text is a URL, so only memory was short.
        Err(_) => Err(ClientError::Memory),
    }
}

/// Whether no call of a client's stores has failed.
fn no_store_failed<L: Link>(client: &AnewClient<L>) -> bool
    ensures { (result ≡ true) ↔ HaveNotFailed (shown L.told L.faults client.now).faults }
{
    client.registry().faults() == 0
        && client.content().faults() == 0
        && client.namespace_map().faults() == 0
}

/// The error that a client answered. A store in memory fails only where that is planned, and here nothing is; should
/// one fail all the same, the error is want of memory.
fn told_error<L: Link>(client: &AnewClient<L>, error: ClientError) -> ClientError
    ensures { (result ≡ WantsMemory)
        ⊎ ((result ≡ error) × HaveNotFailed (shown L.told L.faults client.now).faults) }
{
    if no_store_failed(client) {
        error
    } else {
        ClientError::Memory
    }
}

/// Assembles the component that the plan of a text makes, by a client that has kept nothing and asks over a link.
///
/// The client asks the registry at `https://home.test/`. Signatures are good that are listed as checked, hints at other
/// registries are followed where that is built, and 10,000 pages may be asked for. Each error is one that `Client::assemble`
/// answers.
pub fn assemble_anew<L: Link>(
    alloc: Global,
    text: &str,
    link: L,
    checked: ListedVerifier,
) -> Result<Assembled, ClientError>
    ensures assembled { IfOk result (λ made.
        IsAssembledAnew L.Steps (accepts_listed checked) (L.told link) text.now (plan_view made.plan)
        made.lock.left.items made.lock.bytes.items made.bytes.items) }
    ensures cause { IfErr result (λ e. IsAnewFault L.Steps (accepts_listed checked) (L.told link) e text.now) }
{
    let mut client = client_over(alloc, link, checked)?;
    let bytes = match client.assemble(alloc, text) {
        Ok(bytes) => bytes,
        Err(error) => return Err(told_error(&client, error)),
    };
    match client.into_assembly() {
        Some(made) => Ok(Assembled {
            plan: made.plan,
            lock: made.lock,
            bytes,
        }),
        // A component is that of a plan.
        None => unreachable!(),
    }
}
