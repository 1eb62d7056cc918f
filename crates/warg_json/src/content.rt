//! Where contents are.

ghost use Rattle.warg_exchange.specs.Replies.{source_in, sources_in};

use crate::error::BodyError;
use crate::from_body::FromBody;
use crate::members::{member, required};
use crate::value::expect_word;
use serde_json::Value;
use std::alloc::Global;
use warg_exchange::{ContentSource, ContentSourcesResponse};

impl FromBody for ContentSource {
    ghost use Rattle.warg_exchange.specs.declared.content.ContentSource.{ContentSource as Source};

    ghost Plain = { Source };

    ghost plain = { λ s. s };

    ghost meaning = { source_in };

    #[tactic(auto, unfolding(warg_exchange::specs::Replies::source_in))]
    fn from_body(alloc: Global, value: &Value) -> Result<ContentSource, BodyError> {
        expect_word("httpGet", member("type", value)?)?;
        Ok(ContentSource::HttpGet {
            url: required(alloc, "url", value)?,
        })
    }
}

impl FromBody for ContentSourcesResponse {
    ghost use Rattle.warg_exchange.specs.Views.{Sources, sources_view};

    ghost Plain = { Sources };

    ghost plain = { sources_view };

    ghost meaning = { sources_in };

    fn from_body(alloc: Global, value: &Value) -> Result<ContentSourcesResponse, BodyError> {
        let content_sources = required(alloc, "contentSources", value)?;
        Ok(ContentSourcesResponse { content_sources })
    }
}
