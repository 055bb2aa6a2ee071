//! Descriptors, leases, and what lookups and nodes answer, in JSON.
ghost use Rattle.std.specs.Prelude.{◌≡◌, ◌++◌, map, IfOk, OnOk};
ghost use Rattle.serde_json.specs.View.{view};
ghost use Rattle.ds_text.specs.Ranges.{desc_items, desc_data, lease_items, info_data, looked_data, refusal_data};

use crate::to_json::{ToJson, list_json, only_of};
use ds_desc::{Info, Lease, Looked, RangeDesc, Refusal};
use serde_json::{Value as Json, json};
use std::alloc::{AllocError, Global};

/// What the array of a descriptor has.
fn desc_items(alloc: Global, desc: &RangeDesc) -> Result<Vec<Json>, AllocError>
    ensures { IfOk result (λ v. map view v.items ≡ desc_items desc.now) }
{
    let mut items = Vec::new(alloc);
    items.push(Json::from(desc.id))?;
    items.push(desc.span.start.to_json(alloc)?)?;
    items.push(desc.span.end.to_json(alloc)?)?;
    items.push(Json::from(desc.generation))?;
    items.push(list_json(alloc, desc.nodes.as_slice())?)?;
    Ok(items)
}

/// Adds what the array of a lease has.
fn add_lease(items: &mut Vec<Json>, lease: Lease) -> Result<(), AllocError>
    ensures { OnOk result (map view (items.new).items ≡ map view (items.old).items ++ lease_items lease) }
{
    items.push(Json::from(lease.node))?;
    Ok(items.push(Json::from(lease.number))?)
}

impl ToJson for RangeDesc {
    ghost form = { λ d. desc_data d };

    fn to_json(&self, alloc: Global) -> Result<Json, AllocError> {
        Ok(Json::Array(desc_items(alloc, self)?))
    }
}

impl ToJson for Info {
    ghost form = { λ i. info_data i };

    fn to_json(&self, alloc: Global) -> Result<Json, AllocError> {
        let mut items = desc_items(alloc, &self.desc)?;
        add_lease(&mut items, self.lease)?;
        Ok(Json::Array(items))
    }
}

impl ToJson for Looked {
    ghost form = { λ l. looked_data l };

    fn to_json(&self, alloc: Global) -> Result<Json, AllocError> {
        match self {
            Looked::Rows(infos) => infos.to_json(alloc),
            Looked::Lost => Json::try_from_str(alloc, "lost"),
        }
    }
}

impl ToJson for Refusal {
    ghost form = { λ r. refusal_data r };

    fn to_json(&self, alloc: Global) -> Result<Json, AllocError> {
        match self {
            Refusal::NotFound => Json::try_from_str(alloc, "not_found"),
            Refusal::NotLease { lease } => {
                json!(in alloc; {"lease": [lease.node, lease.number]})
            }
            Refusal::Mismatch { infos } => only_of(alloc, "mismatch", infos),
        }
    }
}
