//! Names of packages by their logs.

ghost use Rattle.warg_exchange.specs.Replies.{names_in};

use crate::error::BodyError;
use crate::from_body::FromBody;
use crate::members::required;
use serde_json::Value;
use std::alloc::Global;
use warg_exchange::FetchPackageNamesResponse;

impl FromBody for FetchPackageNamesResponse {
    ghost use Rattle.warg_exchange.specs.Views.{Names, names_view};

    ghost Plain = { Names };

    ghost plain = { names_view };

    ghost meaning = { names_in };

    fn from_body(alloc: Global, value: &Value) -> Result<FetchPackageNamesResponse, BodyError> {
        let packages = required(alloc, "packages", value)?;
        Ok(FetchPackageNamesResponse { packages })
    }
}
