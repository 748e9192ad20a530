//! The striped read buffers.
ghost use Rattle.std.specs.Prelude.{◌≡◌, ◌<◌, ◌≤◌, [], ◌∷◌, ◌++◌, length, drop, set, replicate, nat_lt, true, false};
ghost use Rattle.std.specs.Prelude.{IfOk, IfSome, IfNone};
ghost use Rattle.shell_model.specs.Buffers.{stripe_at, all_but_newest};
ghost use Rattle.engine_base.specs.declared.limits.TheConstants.{MAX_STRIPES};
ghost use Rattle.shell_model.specs.declared.stripes.TheConstants.{MAX_ITEMS};

use arrayvec::ArrayVec;
use engine_base::Item;
use std::alloc::{AllocError, Global};
use std::marker::Model;

/// How many items a stripe holds at most, as a read buffer of Caffeine does.
pub const MAX_ITEMS: usize = 16;

/// The items that were read and not yet applied, in one buffer a stripe, shown as a list of lists, each oldest
/// first. Stripes are numbered from 0.
#[derive(Drop)]
pub struct Stripes {
    buffers: Vec<ArrayVec<Item, MAX_ITEMS>>,
}

impl Model for Stripes {
    ghost use Rattle.std.specs.Prelude.{List, map};
    ghost use Rattle.engine_base.specs.declared.item.Item.{Item as ItemValue};
    ghost use Rattle.shell_model.specs.Buffers.{items_of};

    ghost Value = { List (List ItemValue) };

    ghost view = { λ s. map items_of s.buffers.items };
}

impl Stripes {
    /// So many empty stripes, at most [`MAX_STRIPES`], with room for all that they may hold. The only error is that
    /// the allocation failed.
    ///
    /// [`MAX_STRIPES`]: engine_base::MAX_STRIPES
    pub fn new(alloc: Global, count: u8) -> Result<Stripes, AllocError>
        requires some { 1 ≤ count }
        requires few { count ≤ MAX_STRIPES }
        ensures { IfOk result (λ stripes. stripes ≡ replicate count []) }
    {
        let mut buffers = Vec::with_capacity(alloc, count as usize)?;
        for _ in 0..count {
            buffers.push_reserved(ArrayVec::new());
        }
        Ok(Stripes { buffers })
    }

    /// How many stripes there are.
    pub fn count(&self) -> usize
        ensures { result ≡ length self.now }
    {
        self.buffers.len()
    }

    /// The items of a stripe, oldest first.
    pub fn items(&self, stripe: u8) -> &[Item]
        requires { stripe < length self.now }
        ensures { result.now ≡ stripe_at stripe self.now }
    {
        self.buffers[stripe as usize].as_slice()
    }

    /// Puts an item after the newest of a stripe. A full stripe answers `false`, and keeps what it has.
    pub fn offer(&mut self, stripe: u8, item: Item) -> bool
        requires { stripe < length self.old }
        ensures room { result ≡ nat_lt (length (stripe_at stripe self.old)) MAX_ITEMS }
        ensures kept { result ≡ true → self.new ≡ set self.old stripe (stripe_at stripe self.old ++ item ∷ []) }
        ensures full { result ≡ false → self.new ≡ self.old }
    {
        let buffer = &mut self.buffers[stripe as usize];
        if buffer.is_full() {
            return false;
        }
        buffer.push(item);
        true
    }

    /// Undoes an `offer` that answered `true`: takes the newest off a stripe.
    pub fn unoffer(&mut self, stripe: u8)
        requires stripe { stripe < length self.old }
        requires some { 1 ≤ length (stripe_at stripe self.old) }
        ensures { self.new ≡ set self.old stripe (all_but_newest (stripe_at stripe self.old)) }
    {
        let _ = self.buffers[stripe as usize].pop();
    }

    /// Takes the oldest item out of a stripe, or answers `None` where it is empty.
    pub fn take_oldest(&mut self, stripe: u8) -> Option<Item>
        requires { stripe < length self.old }
        ensures none { IfNone result ((stripe_at stripe self.old ≡ []) × (self.new ≡ self.old)) }
        ensures oldest { IfSome result (λ item. stripe_at stripe self.old
            ≡ item ∷ drop 1 (stripe_at stripe self.old)) }
        ensures rest { IfSome result (λ _. self.new ≡ set self.old stripe (drop 1 (stripe_at stripe self.old))) }
    {
        let buffer = &mut self.buffers[stripe as usize];
        if buffer.is_empty() {
            return None;
        }
        Some(buffer.remove(0))
    }

    /// Undoes a `take_oldest`: puts an item before the oldest of a stripe.
    pub fn untake(&mut self, stripe: u8, item: Item)
        requires stripe { stripe < length self.old }
        requires room { length (stripe_at stripe self.old) < MAX_ITEMS }
        ensures { self.new ≡ set self.old stripe (item ∷ stripe_at stripe self.old) }
    {
        self.buffers[stripe as usize].insert(0, item);
    }
}
