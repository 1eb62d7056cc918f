//! What stores in memory keep of registries, and of what is to be published.

ghost use Rattle.warg_exchange.specs.declared.checkpoint.SignedCheckpoint.{SignedCheckpoint as Signed};
ghost use Rattle.warg_info.specs.Info.{IsSoundOperator, IsSoundPackage};
ghost use Rattle.warg_publish.specs.Publish.{PlainPublishInfo};
ghost use Rattle.warg_publish.specs.Shown.{info_view};
ghost use Rattle.warg_store.specs.Held.{Info, NamedInfo, IsSoundPublish, named_info, operator_info};

use crate::sound::Stored;
use std::alloc::Global;
use warg_exchange::SignedCheckpoint;
use warg_info::{OperatorInfo, PackageInfo};
use warg_publish::PublishInfo;
use warg_values::Memory;

impl Stored for SignedCheckpoint {
    ghost Seen = { Signed };

    ghost seen = { λ checkpoint. checkpoint };

    ghost IsSound = { λ checkpoint. Unit {0} };

    fn copy(&self, alloc: Global) -> Result<Self, Memory> {
        self.try_clone(alloc)
    }
}

impl Stored for OperatorInfo {
    ghost Seen = { Info };

    ghost seen = { operator_info };

    ghost IsSound = { IsSoundOperator };

    fn copy(&self, alloc: Global) -> Result<Self, Memory> {
        self.try_clone(alloc)
    }
}

impl Stored for PackageInfo {
    ghost Seen = { NamedInfo };

    ghost seen = { named_info };

    ghost IsSound = { IsSoundPackage };

    fn copy(&self, alloc: Global) -> Result<Self, Memory> {
        self.try_clone(alloc)
    }
}

impl Stored for PublishInfo {
    ghost Seen = { PlainPublishInfo };

    ghost seen = { info_view };

    ghost IsSound = { IsSoundPublish };

    fn copy(&self, alloc: Global) -> Result<Self, Memory> {
        self.try_clone(alloc)
    }
}
