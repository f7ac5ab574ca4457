//! Ranks of tasks.
ghost use Rattle.std.specs.Prelude.{◌≡◌};
ghost use Rattle.lf_document.specs.Rank as spec;
ghost use Rattle.lf_task.specs.Tasks.{IsPlaced};

use lf_core::TaskKey;
use lf_env::BASE;

/// The rank of a task; what it may need has a lower one. `origin` is the position of a realized constant's parent, or
/// 4294967295 for the base; it isn't looked at for a head or a body. All other positions are below 4,096.
pub fn rank(key: &TaskKey, origin: u32) -> (u32, u8)
    requires { IsPlaced key.now origin }
    ensures { result ≡ spec.rank_of key.now origin }
{
    match key {
        TaskKey::Head(i) => (*i + 1, 0),
        TaskKey::Body(i) => (*i + 1, 1),
        TaskKey::Real(_) => {
            if origin == BASE {
                (0, 2)
            } else {
                (origin + 1, 2)
            }
        }
    }
}
