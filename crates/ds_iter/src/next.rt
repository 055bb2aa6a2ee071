//! Where the next range begins.
ghost use Rattle.std.specs.Prelude.{◌≡◌};
ghost use Rattle.std.specs.Option.{option_copied};
ghost use Rattle.ds_iter.specs.Next.{next_of};

use ds_base::{Dir, Key};
use ds_desc::Info;

/// The key at which the range after this one, in this direction, is to be sought: forward its end,
/// in reverse its start. `None` exactly where the key space ends there.
pub fn next_key(info: &Info, dir: Dir) -> Option<&Key>
    ensures { option_copied result ≡ next_of dir info.now.desc.span }
{
    match dir {
        Dir::Forward => {
            if info.desc.span.end.is_below_bound() {
                Some(&info.desc.span.end)
            } else {
                None
            }
        }
        Dir::Reverse => {
            if info.desc.span.start.bytes().is_empty() {
                None
            } else {
                Some(&info.desc.span.start)
            }
        }
    }
}
