//! The errors of plans, as a client tells them.

ghost use Rattle.std.specs.Prelude.{◌≡◌};
ghost use Rattle.warg_error.specs.Plans.{learn_refusal, compose_refusal, search_refusal, shape_refusal, stop_refusal};

use crate::error::{ClientError, PlanFault};
use comp_shape::ShapeError;
use warg_compose::ComposeError;
use warg_learn::{LearnError, SearchError};
use warg_plan::Stop;

impl From<Stop> for ClientError {
    ghost from_gives = { λ e told. told ≡ stop_refusal e };

    fn from(stop: Stop) -> ClientError {
        match stop {
            // A search learns what is needed.
            Stop::NeedsLog(_) => ClientError::Memory,
            Stop::NeedsContent(_, _) => ClientError::Memory,
            Stop::NoPackage(key) => ClientError::BadPlan(PlanFault::NoPackage(key)),
            Stop::NoRelease(name) => { ClientError::PackageVersionRequirementDoesNotExist { name } }
            Stop::BadImportName(name) => ClientError::BadImportName(name),
            Stop::NoSuchImport(key, name) => ClientError::BadPlan(PlanFault::NoSuchImport(
                key, name,
            )),
            Stop::Cycle(key) => ClientError::DependencyCycle(key),
            // The walk's depth takes the stack, which is memory.
            Stop::TooDeep => ClientError::Memory,
            Stop::Memory => ClientError::Memory,
        }
    }
}

impl From<ShapeError> for ClientError {
    ghost from_gives = { λ e told. told ≡ shape_refusal e };

    fn from(error: ShapeError) -> ClientError {
        match error {
            ShapeError::Memory => ClientError::Memory,
            error => ClientError::BadComponent(error),
        }
    }
}

impl From<LearnError<ShapeError>> for ClientError {
    ghost from_gives = { λ e told. told ≡ learn_refusal e };

    fn from(error: LearnError<ShapeError>) -> ClientError {
        match error {
            LearnError::Fetch(error) => ClientError::from(error),
            LearnError::Load(error) => ClientError::from(error),
            LearnError::Content(error) => ClientError::from(error),
            LearnError::Memory => ClientError::Memory,
        }
    }
}

impl From<SearchError<LearnError<ShapeError>>> for ClientError {
    ghost from_gives = { λ e told. told ≡ search_refusal e };

    fn from(error: SearchError<LearnError<ShapeError>>) -> ClientError {
        match error {
            SearchError::NoPlan(stop) => ClientError::from(stop),
            SearchError::Refused(refusal) => ClientError::from(refusal),
            SearchError::Memory => ClientError::Memory,
        }
    }
}

impl From<ComposeError> for ClientError {
    ghost from_gives = { λ e told. told ≡ compose_refusal e };

    fn from(error: ComposeError) -> ClientError {
        match error {
            ComposeError::ImportsDisallowed(name) => ClientError::ImportsDisallowed(name),
            ComposeError::Incompatible(why) => ClientError::Incompatible(why),
            ComposeError::TooLarge(number) => ClientError::TooLarge(number),
            ComposeError::Memory => ClientError::Memory,
        }
    }
}
