//! A caller of `compose_config`.

ghost use Rattle.std.specs.Prelude.{◌≡◌, codes};
ghost use Rattle.compose_config.specs.Plan.{dependency_name};
ghost use Rattle.compose_config.specs.View.{settings_of};

use compose_config::Config;

/// The name of the dependency that the instance `root` is made of.
pub fn root_dependency(config: &Config) -> &str
    ensures { result.now ≡ dependency_name (settings_of config.now) (codes "root") }
{
    config.dependency_name("root")
}
