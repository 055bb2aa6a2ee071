//! Which requests may stand with all of some others, from a summary of those.
ghost use Rattle.std.specs.Prelude.{◌≡◌, []};
ghost use Rattle.ds_legal.specs.Mix.{mix_of, mix_with, mix_fits};

use ds_kind::Flags;

/// What some requests are, taken together.
#[derive(Clone, Copy)]
pub struct Mix {
    /// One stands alone.
    pub alone: bool,
    /// One does not write.
    pub reads: bool,
    /// One writes.
    pub writes: bool,
    /// One goes up a range.
    pub forward: bool,
    /// One goes down a range.
    pub reverse: bool,
}

impl Mix {
    /// The mix of no request.
    pub fn new() -> Mix
        ensures { result ≡ mix_of [] }
    {
        Mix {
            alone: false,
            reads: false,
            writes: false,
            forward: false,
            reverse: false,
        }
    }

    /// The mix of these and one more.
    pub fn with(self, flags: Flags) -> Mix
        ensures { result ≡ mix_with self flags }
    {
        Mix {
            alone: self.alone || flags.alone,
            reads: self.reads || !flags.write,
            writes: self.writes || flags.write,
            forward: self.forward || flags.range && !flags.reverse,
            reverse: self.reverse || flags.range && flags.reverse,
        }
    }

    /// Whether one with these flags may stand with all of them.
    pub fn fits(self, flags: Flags) -> bool
        ensures { result ≡ mix_fits self flags }
    {
        let other_writing = if flags.write { self.reads } else { self.writes };
        let other_way = if flags.reverse {
            self.forward
        } else {
            self.reverse
        };
        !self.alone
            && !(flags.alone && (self.reads || self.writes))
            && !other_writing
            && !(flags.range && other_way)
    }
}
