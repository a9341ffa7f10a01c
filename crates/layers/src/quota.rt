// A layer that keeps the total length of the live blocks within a limit.
ghost use Rattle.std.specs.Prelude.{refl, ◌≡◌, ◌+◌, ◌≤◌};
ghost use Rattle.heap.specs.Histories.{after_allocate, after_free, Kept};
ghost use Rattle.heap.specs.Meaning.{NothingLive, Allocates, MayFree, Frees};
ghost use Rattle.layers.specs.Quotas.{Charges, Credits, Paid, quota_offer};
ghost use Rattle.layers.specs.Quota.{quota_means, QuotaKeeps};
ghost use Rattle.layers.specs.Rationed.{rationed_lawful};

use heap::checks::admit;
use heap::fault::{Cause, Fault, Kind, hand_up, make_own};
use heap::interface::{Heap, LARGEST_SIZE, Meant, length_at};

#[derive(Drop)]
pub struct Quota<H> {
    below: H,
    limit: u32,
    // the total of the lengths granted and not freed since
    account: u32,
}

impl<H: Heap> Quota<H> {
    // Over a heap with nothing live the account is right from the start.
    pub fn new(below: H, limit: u32) -> Quota<H>
        ensures below { result.below ≡ below }
        ensures limit { result.limit ≡ limit }
        ensures account { result.account ≡ 0 }
        ensures paid { NothingLive (H.Meant.means below) → Paid result.limit result.account (H.Meant.means result.below) }
    {
        Quota {
            below,
            limit,
            account: 0,
        }
    }

    pub fn account(&self) -> u32
        ensures { result ≡ self.now.account }
    {
        self.account
    }

    fn offered(&self, n: u32) -> Result<(u32, u32), Fault>
        ensures { result ≡ quota_offer self.now.limit self.now.account (H.Meant.means self.now.below) n }
    {
        let n = admit(n, LARGEST_SIZE, Kind::Quota)?;
        let block = hand_up(self.below.offer(n))?;
        if block.1 <= self.limit && self.account <= self.limit - block.1 {
            Ok(block)
        } else {
            Err(Fault::new(Cause::OverQuota, Kind::Quota, n))
        }
    }

    // Allocates, and charges the length granted. The offer is asked first, since to allocate and free again could change offers below.
    fn charge(&mut self, n: u32) -> Result<(u32, u32), Fault>
        ensures answer { result ≡ quota_offer self.old.limit self.old.account (H.Meant.means self.old.below) n }
        ensures after { Allocates (H.Meant.means self.old.below) (H.Meant.means self.new.below) result }
        ensures kept { Kept H.Meant.keeps (after_allocate n result) self.old.below self.new.below }
        ensures limit { self.new.limit ≡ self.old.limit }
        ensures account { Charges self.old.account self.new.account result }
    {
        let block = self.offered(n)?;
        let _ = self.below.allocate(n);
        self.account += block.1;
        Ok(block)
    }

    // Frees, and credits the length of the block that ended.
    fn credit(&mut self, a: u32) -> Result<(), Fault>
        ensures answer { MayFree (H.Meant.means self.old.below).kind (H.Meant.means self.old.below).live a result }
        ensures after { Frees a (H.Meant.means self.old.below) (H.Meant.means self.new.below) result }
        ensures kept { Kept H.Meant.keeps (after_free a result) self.old.below self.new.below }
        ensures limit { self.new.limit ≡ self.old.limit }
        ensures account { Credits self.old.account self.new.account ((H.Meant.means self.old.below).live a) result }
    {
        let length = length_at(&self.below, a);
        self.below.free(a)?;
        self.account = self.account.saturating_sub(length);
        Ok(())
    }
}

impl<H: Heap> Meant for Quota<H> {
    ghost means = { quota_means H.Meant.means };

    ghost keeps = { QuotaKeeps H.Meant.means H.Meant.keeps };

    ghost lawful = { λ s. rationed_lawful s.limit s.account _ (H.Meant.lawful s.below) };

    ghost begins = { λ s. record { limit = refl; paid = λ p. p; below = H.Meant.begins s.below } };
}

impl<H: Heap> Heap for Quota<H> {
    fn span(&self) -> u32 {
        self.below.span()
    }

    fn offer(&self, n: u32) -> Result<(u32, u32), Fault> {
        self.offered(n)
    }

    // The heap below under this kind, as in the rounding layer: Rust has no delegation.
    fn find(&self, a: u32) -> Option<(u32, u32)> {
        self.below.find(a)
    }

    fn get(&self, a: u32) -> Result<u8, Fault> {
        make_own(self.below.get(a), Kind::Quota, a)
    }

    fn allocate(&mut self, n: u32) -> Result<(u32, u32), Fault> {
        self.charge(n)
    }

    fn free(&mut self, a: u32) -> Result<(), Fault> {
        make_own(self.credit(a), Kind::Quota, a)
    }

    fn fill(&mut self, a: u32, c: u32, b: u8) -> Result<(), Fault> {
        make_own(self.below.fill(a, c, b), Kind::Quota, a)
    }

    fn relief(&mut self) {
        self.below.relief();
    }
}
