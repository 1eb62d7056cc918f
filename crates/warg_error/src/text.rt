//! Texts of which plans are made.

ghost use Rattle.std.specs.Prelude.{◌≡◌, IfErr, IfOk};
ghost use Rattle.compose_config.specs.Plan.{Settings};
ghost use Rattle.compose_config.specs.View.{settings_of};
ghost use Rattle.warg_plan.specs.FormView.{misfit_view};
ghost use Rattle.warg_error.specs.Text.{IsPlanText, IsTextFault, IsMisfit, read_refusal};
ghost use Rattle.warg_error.specs.declared.error.ClientError.TheVariants.{Memory as WantsMemory};

use crate::error::{ClientError, PlanFault};
use compose_config::Config;
use std::alloc::Global;
use warg_plan::{TextError, check_text};
use warg_values::Memory;
use yaml_read::DeError;

/// Why no plan is made of a text, with texts of its own.
fn fault_of(alloc: Global, error: &TextError<'_>) -> Result<PlanFault, Memory>
    ensures { IfOk result (λ fault. IsMisfit fault (misfit_view error.now)) }
{
    Ok(match error {
        TextError::Definitions => PlanFault::Definitions,
        TextError::SearchPaths => PlanFault::SearchPaths,
        TextError::Dependencies => PlanFault::Dependencies,
        TextError::ImportComponents => PlanFault::ImportComponents,
        TextError::Export { instance, argument } => PlanFault::Export {
            instance: instance.try_clone(alloc)?,
            argument: argument.try_clone(alloc)?,
        },
    })
}

/// That a text is no configuration.
fn unread(error: DeError) -> ClientError
    ensures { result ≡ read_refusal error }
{
    if let DeError::Memory = &error {
        return ClientError::Memory;
    }
    ClientError::BadPlan(PlanFault::Text(error))
}

/// The configuration that a text is, of which a plan is made.
///
/// The text is refused where it is no configuration, and where it names files, imports components or gives an argument as
/// an export: the first of these is told.
pub fn plan_text(alloc: Global, text: &str) -> Result<Config, ClientError>
    ensures read { IfOk result (λ config. IsPlanText text.now (settings_of config)) }
    ensures fault { IfErr result (λ e. IsTextFault e text.now) }
    // A text has one configuration of which a plan is made, and where it has one it is refused for want of memory alone.
    ensures one { (s : Settings) → IsPlanText text.now s → IfOk result (λ config. settings_of config ≡ s) }
    ensures short { (s : Settings) → IsPlanText text.now s → IfErr result (λ e. e ≡ WantsMemory) }
{
    let config = match Config::from_text(alloc, text) {
        Ok(config) => config,
        Err(error) => return Err(unread(error)),
    };
    if let Err(error) = check_text(&config) {
        return Err(ClientError::BadPlan(fault_of(alloc, &error)?));
    }
    Ok(config)
}
