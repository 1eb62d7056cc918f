//! What a client answers of one package, and what it tells of a store that fails, over recorded replies.

use crate::assemble::TEXT;
use crate::world::{
    CHECKED, TYPES_CHECKPOINT, TYPES_CONTENT, TYPES_INCLUSION, TYPES_LINKED, TYPES_LOCK,
    TYPES_PAGE, TYPES_SOURCES,
};
use hex::encode;
use std::alloc::Global;
use std::rt::HostRuntime;
use std::test::Fail;
use test_check::replies_file;
use warg_api::RecordedLink;
use warg_client::{Client, ClientError, LockListBuilder, Settings};
use warg_hash::PackageName;
use warg_hint::AlwaysDecide;
use warg_info::PackageInfo;
use warg_log::ListedVerifier;
use warg_recorded::{read_checked, read_replies};
use warg_store::{After, MemoryContent, MemoryNamespaces, MemoryRegistry};

/// A client with stores in memory.
type TestClient = Client<
    RecordedLink,
    MemoryRegistry,
    MemoryContent,
    MemoryNamespaces,
    ListedVerifier,
    AlwaysDecide,
>;

/// The bodies of the replies to the plan.
const BODIES: &[&str] = &[
    TYPES_CHECKPOINT,
    TYPES_PAGE,
    TYPES_INCLUSION,
    TYPES_SOURCES,
    TYPES_CONTENT,
];

/// Which call of the store of registries fails, and what is told. The loads come first, then what an update proved is
/// stored: the operator's log, the package's, the checkpoint.
const FAILING: &[(u64, &str)] = &[
    (1, "StoreFault"),
    (2, "StoreFault"),
    (6, "StoreFault"),
    (7, "assembled"),
];

/// A client over these replies, with this store of registries.
fn client(alloc: Global, bodies: &[&str], registry: MemoryRegistry) -> Result<TestClient, Fail> {
    let replies = read_replies(alloc, replies_file(alloc, bodies)?.as_bytes())?;
    let settings = Settings {
        ignore_federation_hints: false,
        disable_auto_accept_federation_hints: false,
        disable_auto_package_init: false,
        disable_interactive: false,
        round_limit: 1,
        polls: 1,
    };
    Ok(Client::new(
        alloc,
        "https://home.test",
        RecordedLink::new(alloc, replies),
        registry,
        MemoryContent::new(alloc),
        MemoryNamespaces::new(alloc),
        read_checked(alloc, CHECKED.as_bytes())?,
        AlwaysDecide { answer: true },
        None,
        settings,
    )?)
}

/// What an assembly tells where this call of the store of registries fails.
fn told(alloc: Global, call: u64) -> Result<String, Fail> {
    let mut registry = MemoryRegistry::new(alloc);
    registry.fail_at(call, After::Old)?;
    let mut client = client(alloc, BODIES, registry)?;
    match client.assemble(alloc, TEXT) {
        Ok(_) => Ok(String::from_str(alloc, "assembled")?),
        Err(error) => {
            let told = format!(in alloc; "{error:?}");
            drop(error);
            Ok(told?)
        }
    }
}

#[test]
fn a_call_of_a_store_that_fails_is_told_and_no_other(rt: HostRuntime) -> Result<(), Fail> {
    for (call, expected) in FAILING {
        let found = told(rt.alloc(), *call)?;
        if found.as_str() != *expected {
            return Err(Fail::new(format_args!("call {call}: {found}")));
        }
    }
    Ok(())
}

/// What is asked of a client for its one package.
#[derive(Clone, Copy)]
enum Call {
    /// An update of its log.
    Fetch,
    /// So many updates of its log in one call.
    FetchAll(usize),
    /// Its log.
    Package,
    /// The lock of its plan.
    Lock,
    /// The component of its plan.
    Bundle,
    /// The lock of its plan, bundled.
    BundleLock,
    /// No bytes, bundled.
    BundleNothing,
    /// What the imports of its plan ask for.
    List,
}

/// What a call gives that answers bytes, in hex, or the error.
fn bytes_told(alloc: Global, answer: Result<Vec<u8>, ClientError>) -> Result<String, Fail> {
    match answer {
        Ok(bytes) => Ok(encode(alloc, &bytes)?),
        Err(error) => {
            let told = format!(in alloc; "{error:?}");
            drop(error);
            Ok(told?)
        }
    }
}

/// How many releases are in the log that a call answers, or the error.
fn log_told(alloc: Global, answer: Result<PackageInfo, ClientError>) -> Result<String, Fail> {
    match answer {
        Ok(info) => {
            let told = format!(in alloc; "{} releases", info.log.state().releases().len());
            drop(info);
            Ok(told?)
        }
        Err(error) => {
            let told = format!(in alloc; "{error:?}");
            drop(error);
            Ok(told?)
        }
    }
}

/// How many logs a call answers that updates a package so many times, or the error.
fn logs_told(
    alloc: Global,
    client: &mut TestClient,
    name: &PackageName,
    times: usize,
) -> Result<String, Fail> {
    let mut names = Vec::new(alloc);
    for _ in 0..times {
        names.push(name.try_clone(alloc)?)?;
    }
    match client.fetch_packages(alloc, &names) {
        Ok(infos) => {
            let told = format!(in alloc; "{} logs", infos.len());
            drop(infos);
            Ok(told?)
        }
        Err(error) => {
            let told = format!(in alloc; "{error:?}");
            drop(error);
            Ok(told?)
        }
    }
}

/// The lock of a package's plan, with the contents of releases in the places of its imports.
fn bundled_lock(
    alloc: Global,
    client: &mut TestClient,
    info: &PackageInfo,
) -> Result<Vec<u8>, ClientError> {
    let lock = client.lock_component(alloc, info)?;
    client.bundle(alloc, &lock)
}

/// How many imports a package's plan has, or the error.
fn list_told(alloc: Global, client: &mut TestClient, info: &PackageInfo) -> Result<String, Fail> {
    let mut builder = LockListBuilder::new(alloc);
    match builder.build_list(alloc, client, info) {
        Ok(()) => Ok(format!(in alloc; "{} imports", builder.lock_list.len())?),
        Err(error) => {
            let told = format!(in alloc; "{error:?}");
            drop(error);
            Ok(told?)
        }
    }
}

/// What a call of a client tells.
fn asked(
    alloc: Global,
    client: &mut TestClient,
    call: Call,
    info: &PackageInfo,
) -> Result<String, Fail> {
    match call {
        Call::Fetch => log_told(alloc, client.fetch_package(alloc, &info.name)),
        Call::FetchAll(times) => logs_told(alloc, client, &info.name, times),
        Call::Package => log_told(alloc, client.package(alloc, &info.name)),
        Call::Lock => bytes_told(alloc, client.lock_component(alloc, info)),
        Call::Bundle => bytes_told(alloc, client.bundle_component(alloc, info)),
        Call::BundleLock => bytes_told(alloc, bundled_lock(alloc, client, info)),
        Call::BundleNothing => bytes_told(alloc, client.bundle(alloc, b"")),
        Call::List => list_told(alloc, client, info),
    }
}

/// Calls of one client in turn, with what each tells, over as many replies.
const CALLS: &[(&[(Call, &str)], &[&str])] = &[
    // What was fetched is kept, and no more is asked for than the content.
    (
        &[
            (Call::Package, "2 releases"),
            (Call::Package, "2 releases"),
            (Call::Lock, TYPES_LOCK),
            (Call::Bundle, TYPES_LINKED),
            (Call::BundleLock, TYPES_LINKED),
            (Call::BundleNothing, "BadComponent(Form(0))"),
            (Call::List, "0 imports"),
        ],
        BODIES,
    ),
    // What is not kept is fetched.
    (
        &[
            (Call::Bundle, TYPES_LINKED),
            (Call::Lock, TYPES_LOCK),
            (Call::Package, "2 releases"),
        ],
        BODIES,
    ),
    // An update asks again, whatever is kept.
    (
        &[(Call::Fetch, "2 releases"), (Call::Fetch, "LinkFault")],
        &[TYPES_CHECKPOINT, TYPES_PAGE, TYPES_INCLUSION],
    ),
    // Several packages are updated, of which none is asked for twice, and what was updated is kept.
    (
        &[
            (Call::FetchAll(2), "Memory"),
            (Call::FetchAll(0), "0 logs"),
            (Call::FetchAll(1), "1 logs"),
            (Call::Package, "2 releases"),
        ],
        &[TYPES_CHECKPOINT, TYPES_PAGE, TYPES_INCLUSION],
    ),
    (
        &[
            (Call::Package, "LinkFault"),
            (Call::Lock, "LinkFault"),
            (Call::Bundle, "LinkFault"),
        ],
        &[],
    ),
];

/// Fails at the first call of a client that tells something else.
fn each_tells_so(
    alloc: Global,
    client: &mut TestClient,
    info: &PackageInfo,
    calls: &[(Call, &str)],
) -> Result<(), Fail> {
    for (call, expected) in calls {
        let found = asked(alloc, client, *call, info)?;
        if found.as_str() != *expected {
            return Err(Fail::new(format_args!("{found} in place of {expected}")));
        }
    }
    Ok(())
}

/// Fails at the first call of a new client over these replies that tells something else.
fn tell_so(alloc: Global, calls: &[(Call, &str)], bodies: &[&str]) -> Result<(), Fail> {
    let info = PackageInfo::new(alloc, PackageName::new(alloc, "demo:app")?);
    let mut client = client(alloc, bodies, MemoryRegistry::new(alloc))?;
    each_tells_so(alloc, &mut client, &info, calls)
}

#[test]
fn the_log_that_is_kept_of_a_package_serves_its_plan(rt: HostRuntime) -> Result<(), Fail> {
    for (calls, bodies) in CALLS {
        tell_so(rt.alloc(), calls, bodies)?;
    }
    Ok(())
}
