//! The depth buffer of a tile: each pixel's nearest fragment.

ghost use Rattle.std.specs.Prelude.{◌≡◌, length};
ghost use Rattle.hd_picture.specs.inner.DepthBuffer.{IsMinDepth};

use crate::define::pixels::{BLACK, Fragment};

/// The fragment where no triangle is seen, below every depth of one.
pub const BACKGROUND: Fragment = Fragment {
    depth: -(1 << 25),
    color: BLACK,
};

/// The least depth of a tile's nearest fragments.
pub fn min_depth_of(depth_buffer: &[Fragment]) -> i64
    requires { length depth_buffer.now ≡ 256 }
    ensures { IsMinDepth depth_buffer.now result }
{
    let mut least = depth_buffer[0].depth;
    for held in depth_buffer {
        least = held.depth.min(least);
    }
    least
}
