// Who may touch a byte: document 01, "Permitted byte", and 02, M-104. Lists of scatter/gather entries: their total, and a list cut short.
ghost use Rattle.std.specs.Prelude.{◌≡◌, ◌≤◌, length};
ghost use Rattle.tables.specs.State.{card, registration_of};
ghost use Rattle.tables.specs.Layout.{state_size};
ghost use Rattle.rules.specs.Touch.{range, sge_bytes, sge_total, cut};
ghost use Rattle.dma.specs.Grants.{region_of, admits, allows_all, spans};

use rules::Party;
use tables::limits::{LOCAL_WRITE, MR_COUNT};
use tables::rows::State;
use tables::{Kind, Region, Sge, rows};

// The live region that has exactly a key, if there is one; who may touch it does not depend on its kind, which is left out.
fn region_of(state: &State, key: u32) -> Option<Region>
    ensures { result ≡ region_of (card state.now).mr key }
{
    let slot = (key / 256) as usize;
    if MR_COUNT <= slot {
        return None;
    }
    if rows::load_flag(state, Kind::Mr, slot) != 1 {
        return None;
    }
    let r = rows::load_mr(state, slot);
    if (r.variant as u32) != key % 256 {
        return None;
    }
    Some(Region { kind: 0, ..r })
}

// Whether a region has the party's domain, its access the use's right, and so the party's flags where the use is a remote one.
fn has_use(r: Region, p: Party, mask: u8) -> bool
    ensures { result ≡ admits (registration_of r) p mask }
{
    let granted = (mask == 0) | !(r.access & mask == 0);
    let opened = (mask <= LOCAL_WRITE) | !(p.rights & mask == 0);
    (r.pd == p.pd) & granted & opened
}

// Whether both ends of a range lie in a region.
fn holds_ends(r: Region, address: u64, n: u64) -> bool
    ensures { result ≡ spans (registration_of r) address n }
{
    if address < r.virt {
        return false;
    }
    wire::sum_within(address - r.virt, n, r.length)
}

// Whether each of the n bytes from an address on is permitted: it looks at the two ends only, and of an empty range at no key and no flags.
pub fn range_permitted(state: &State, p: Party, mask: u8, address: u64, n: u64, key: u32) -> bool
    ensures { result ≡ allows_all (card state.now) p mask (range address key n) }
{
    if n == 0 {
        return true;
    }
    match region_of(state, key) {
        Some(r) => has_use(r, p, mask) & holds_ends(r, address, n),
        None => false,
    }
}

// Whether each byte of the entries is permitted.
pub fn sges_permitted(state: &State, p: Party, mask: u8, sges: &[Sge]) -> bool
    ensures { result ≡ allows_all (card state.now) p mask (sge_bytes sges.now) }
{
    sges.iter().all(|s| range_permitted(state, p, mask, s.address, s.length as u64, s.key))
}

// The number of bytes of the entries.
pub fn sges_total(sges: &[Sge]) -> u64
    requires { length sges.now ≤ 4 }
    ensures { result ≡ sge_total sges.now }
{
    sges.iter().map(|s| s.length as u64).sum()
}

// Cuts the entries to n bytes in all.
pub fn cut_to(sges: &mut [Sge], n: u32)
    ensures { sges.new ≡ cut n sges.old }
{
    let mut left = n;
    for s in sges.iter_mut() {
        s.length = left.min(s.length);
        left -= s.length;
    }
}
