mod rebuilding;

ghost use Rattle.std.specs.Prelude.{◌+◌, ◌≤◌};

use parity_log::Progress;

// A rebuild under way. It is no `Drop`: whoever has one must close it.
pub struct RebuildJob {
    pub(crate) progress: Progress,
    ghost counted: { progress.rebuilt + progress.failed ≤ progress.group },
}
