//! What a cook keeps of finished nodes.
ghost use Rattle.std.specs.Prelude.{◌≡◌, ℕ, ◌<◌, ◌⊎◌, [], ◌∷◌, length, IfOk, None, Some, slice_get, slice_set};
ghost use Rattle.sop_net.specs.Network.{IsLive};
ghost use Rattle.sop_vault.specs.Keyed.{at, IsLive as HasGeo};
ghost use Rattle.sop_vault.specs.Passing.{Passes, Owns};
ghost use Rattle.sop_cook.specs.Keys.{keys_in};
ghost use Rattle.sop_cook.specs.Parts.{AreNone, IsShareKept};

use crate::uses::uses_of;
use sop_net::{Net, NodeId};
use sop_vault::{GeoKey, Vault};
use std::alloc::{AllocError, Global};

/// How often each node is still used, and the keys of geometries that are still used.
#[derive(Debug, Drop)]
pub struct Kept {
    pub uses: Vec<u32>,
    pub keys: Vec<Option<GeoKey>>,
}

impl Kept {
    /// What is kept before any node of a cook of `node` was finished.
    pub fn new(alloc: Global, net: &Net, node: NodeId) -> Result<Kept, AllocError>
        requires { IsLive net.now.nodes node }
        ensures uses { IfOk result (λ kept. length kept.uses.items ≡ length net.now.nodes) }
        ensures keys { IfOk result (λ kept. AreNone (length net.now.nodes) kept.keys.items) }
    {
        Ok(Kept {
            uses: uses_of(alloc, net, node)?,
            keys: no_keys(alloc, net.nodes() as usize)?,
        })
    }

    /// Takes the kept key of node x, of which one use less is left.
    pub fn take(&mut self, x: usize) -> Option<GeoKey>
        requires uses { x < length self.old.uses.items }
        requires keys { x < length self.old.keys.items }
        ensures uses { length self.new.uses.items ≡ length self.old.uses.items }
        ensures keys { self.new.keys.items ≡ slice_set self.old.keys.items x None }
        ensures taken { slice_get self.old.keys.items x ≡ Some result }
    {
        self.uses[x] = self.uses[x].saturating_sub(1);
        self.keys[x].take()
    }

    /// Keeps a share of the geometry of node x, where a later use is left and none is kept.
    pub fn keep(&mut self, x: usize, key: GeoKey, vault: &mut Vault<'_>) -> Result<(), AllocError>
        requires uses { x < length self.old.uses.items }
        requires keys { x < length self.old.keys.items }
        requires owns { Owns vault.old (key ∷ keys_in self.old.keys.items) }
        ensures uses { self.new.uses.items ≡ self.old.uses.items }
        ensures keys { (self.new.keys.items ≡ self.old.keys.items) ⊎ IsShareKept vault.new self.old.keys.items x (at vault.old.geos key) self.new.keys.items }
        ensures stays { (k : ℕ) → HasGeo vault.old.geos k → at vault.new.geos k ≡ at vault.old.geos k }
        ensures passes { Passes vault.old (keys_in self.old.keys.items) vault.new (keys_in self.new.keys.items) }
        ensures owns { Owns vault.new (keys_in self.new.keys.items) }
    {
        if self.uses[x] > 0 && self.keys[x].is_none() {
            self.keys[x] = Some(vault.share(key)?);
        }
        Ok(())
    }
}

/// So many places without a key.
fn no_keys(alloc: Global, count: usize) -> Result<Vec<Option<GeoKey>>, AllocError>
    ensures { IfOk result (λ places. AreNone count places.items) }
{
    let mut places = Vec::with_capacity(alloc, count)?;
    for _ in 0..count {
        places.push(None)?;
    }
    Ok(places)
}

/// Lets the geometries at these keys go.
pub fn drop_all(keys: &[Option<GeoKey>], vault: &mut Vault<'_>)
    requires { Owns vault.old (keys_in keys.now) }
    ensures { Passes vault.old (keys_in keys.now) vault.new [] }
{
    for key in keys {
        if let Some(key) = *key {
            vault.drop_geo(key);
        }
    }
}
