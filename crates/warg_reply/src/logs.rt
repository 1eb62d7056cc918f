//! The JSON of pages of logs.

ghost use Rattle.std.specs.Prelude.{◌≡◌, ◌≤◌, IfOk, Ok, bytes_eq};
ghost use Rattle.indexmap.specs.IndexMap.{IsUnique};
ghost use Rattle.serde_json.specs.Data.{depth};
ghost use Rattle.serde_json.specs.View.{view};
ghost use Rattle.warg_exchange.specs.Body.{list_in, hashed_in};
ghost use Rattle.warg_exchange.specs.Replies.{published_in, page_in};
ghost use Rattle.warg_reply.specs.Bodies.{published_data, page_data};
ghost use Rattle.warg_reply.specs.Order.{ascending, NameThemselves};

use crate::bodies::names_itself;
use base64::engine::general_purpose::STANDARD;
use indexmap::IndexMap;
use serde_json::{Map, Value, json};
use std::alloc::Global;
use warg_exchange::{FetchLogsResponse, PublishedRecord};
use warg_hash::LogId;
use warg_values::{Memory, Sequence};

/// The JSON of a record, by its members, with its message in base64.
fn published_object(
    alloc: Global,
    contents: &str,
    published: &PublishedRecord,
) -> Result<Value, Memory>
    ensures { IfOk result (λ v. view v ≡ published_data contents.now published.now) }
{
    Ok(json!(in alloc; {
            "contentBytes": contents,
            "fetchToken": published.fetch_token.as_str(),
            "keyId": published.key_id.as_str(),
            "registryIndex": published.registry_index,
            "signature": published.signature.as_str(),
        })?)
}

/// The JSON of a record.
fn published_value(alloc: Global, published: &PublishedRecord) -> Result<Value, Memory>
    ensures says { IfOk result (λ v. published_in (view v) ≡ Ok published.now) }
    ensures nests { IfOk result (λ v. depth (view v) ≡ 1) }
{
    let contents = STANDARD.encode(alloc, published.content_bytes.as_slice())?;
    published_object(alloc, contents.as_str(), published)
}

/// The JSON of records, in order.
fn records_value(alloc: Global, records: &[PublishedRecord]) -> Result<Value, Memory>
    ensures says { IfOk result (λ v. list_in published_in (view v) ≡ Ok records.now) }
    ensures nests { IfOk result (λ v. depth (view v) ≤ 2) }
{
    let mut values = Vec::new(alloc);
    for published in records {
        let value = published_value(alloc, published)?;
        values.push(value)?;
    }
    Ok(Value::Array(values))
}

/// The JSON of packages' records, by the texts of their logs' ids.
fn packages_value(
    alloc: Global,
    packages: &IndexMap<LogId, Sequence<PublishedRecord>>,
) -> Result<Value, Memory>
    ensures says { IfOk result (λ v. hashed_in (list_in published_in) (view v) ≡ Ok (ascending packages.now.entries)) }
    ensures ids { IfOk result (λ _. NameThemselves packages.now.entries) }
    ensures unique { IsUnique bytes_eq packages.now }
    ensures nests { IfOk result (λ v. depth (view v) ≤ 3) }
{
    let mut map = Map::new(alloc);
    for (id, records) in packages {
        names_itself(id.hash());
        let name = id.text(alloc)?;
        let value = records_value(alloc, records.as_slice())?;
        serde_json::put(&mut map, alloc, name.as_str(), value)?;
    }
    Ok(Value::Object(map))
}

/// The JSON of a page, by its members.
fn page_object(alloc: Global, more: bool, operator: Value, packages: Value) -> Result<Value, Memory>
    ensures { IfOk result (λ v. view v ≡ page_data more (view operator) (view packages)) }
{
    Ok(json!(in alloc; {"more": more, "operator": operator, "packages": packages})?)
}

/// The JSON of a page.
pub fn page_value(alloc: Global, page: &FetchLogsResponse) -> Result<Value, Memory>
    ensures says { IfOk result (λ v. page_in (view v) ≡ Ok (record {
      more = page.now.more;
      operator = page.now.operator;
      packages = ascending page.now.packages.entries;
    })) }
    ensures ids { IfOk result (λ _. NameThemselves page.now.packages.entries) }
    ensures unique { IfOk result (λ _. IsUnique bytes_eq page.now.packages) }
    ensures nests { IfOk result (λ v. depth (view v) ≤ 4) }
{
    let operator = records_value(alloc, page.operator.as_slice())?;
    let packages = packages_value(alloc, &page.packages)?;
    page_object(alloc, page.more, operator, packages)
}
