//! A copy of all ranges.
ghost use Rattle.std.specs.Prelude.{◌≡◌, IfOk};

use crate::ranges::Ranges;
use crate::slot::Slot;
use ds_base::Copies;
use std::alloc::{AllocError, Global};

fn copy_ranges(alloc: Global, ranges: &[Slot]) -> Result<Vec<Slot>, AllocError>
    ensures { IfOk result (λ made. made.items ≡ ranges.now) }
{
    let mut made = Vec::with_capacity(alloc, ranges.len())?;
    'each: for range in ranges {
        made.push(range.copy(alloc)?)?;
    }
    Ok(made)
}

fn copy_places(alloc: Global, places: &[usize]) -> Result<Vec<usize>, AllocError>
    ensures { IfOk result (λ made. made.items ≡ places.now) }
{
    let mut made = Vec::with_capacity(alloc, places.len())?;
    'each: for place in places {
        made.push(*place)?;
    }
    Ok(made)
}

impl Copies for Ranges {
    fn copy(&self, alloc: Global) -> Result<Ranges, AllocError> {
        let items = copy_ranges(alloc, self.items.as_slice())?;
        let places = copy_places(alloc, self.places.as_slice())?;
        let lineage = self.lineage.copy(alloc)?;
        Ok(Ranges {
            items,
            places,
            lineage,
        })
    }
}
