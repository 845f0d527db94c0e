//! The addresses of a scan.

ghost use Rattle.std.specs.Prelude.{◌↔◌, IsTrue};
ghost use Rattle.nbt_scan.specs.Plans.{AreAscending, IsPlaceOf};

/// The most addresses of a scan (our profile).
pub const ADDRESSES_MOST: usize = 65_536;

/// The place of an address in an ascending list, or `None` where the list doesn't have it.
pub fn place_of(ips: &[u32], ip: u32) -> Option<usize>
    requires { AreAscending ips.now }
    ensures { IsPlaceOf ips.now ip result }
{
    match ips.binary_search(&ip) {
        Ok(place) => Some(place),
        Err(_) => None,
    }
}

/// Whether each address is below those behind it.
pub fn are_ascending(ips: &[u32]) -> bool
    ensures { IsTrue result ↔ AreAscending ips.now }
{
    for i in 1..ips.len() {
        if ips[i] <= ips[i - 1] {
            return false;
        }
    }
    true
}
