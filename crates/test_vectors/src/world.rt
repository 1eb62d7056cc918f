//! What the registries of the tests say: `world.py` wrote this file.

/// The first checkpoint of the home registry.
pub const CHECKPOINT: &str =
    "4 sha256:e7235eeacc3d5906225d7a3d5659cdf877c108cc7cb65fa1d20c97f8034c99c7 sha256:e48666ba1c1a143bac3c00e06b48eaae081e8240fb8cb9f8ac4280fbc96f7bdc 4 demo:AAAAAAAAAAA=";

/// The root of its log then.
pub const ROOT: &str = "sha256:e7235eeacc3d5906225d7a3d5659cdf877c108cc7cb65fa1d20c97f8034c99c7";

/// The id of the record of the release 1.1.0.
pub const RECORD: &str = "sha256:b4313c3068a72a13cf4c3068e15131e15d4660d948f4e3f4c35ff6883205e5f4";

/// The second one.
pub const LATER: &str =
    "5 sha256:d932f1d37ca381e31947fc380a7f23ee5a138c12ad82f019ad97252a46bc7412 sha256:3312a6ea2f9a86483e3d4d6b86c7b080d59cf3551e627514784dbc3c478a644b 5 demo:AAAAAAAAAAA=";

/// The root of the log then.
pub const LATER_ROOT: &str =
    "sha256:d932f1d37ca381e31947fc380a7f23ee5a138c12ad82f019ad97252a46bc7412";

/// The first checkpoint of the other registry.
pub const OTHER: &str =
    "3 sha256:6ec62210ec1c6e0695a1049abac6b6d888b1cd01db07342f1bff1d594501a5e8 sha256:c6e0d862b61845dca2d80de2a71349671bec079dce9b672f994ae6c0cb639eb2 3 demo:AAAAAAAAAAE=";
